// What each kind does and gives, one row a kind; and the laws of the rows.
#![tactic(auto)]
