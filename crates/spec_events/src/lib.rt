// What the calls on events and event bits do: load, pend, set and clear; and the laws of it.
#![tactic(auto)]
