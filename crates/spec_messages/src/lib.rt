// What the calls on messages do: create, destroy, post and pend; and the laws of it.
#![tactic(auto)]
