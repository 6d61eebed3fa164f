// Every accepted call keeps the state rules: theorems only.
#![tactic(auto)]
