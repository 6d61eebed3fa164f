// What each kind must do, said of the state before and the state after: no definition of an effect is used.
#![tactic(auto)]
