// What the calls on regions do: push, pop and pop all of the two levels; and the laws of it.
#![tactic(auto)]
