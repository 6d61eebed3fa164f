// What the calls on device flags do: create, destroy, pend and post; and the laws of it.
#![tactic(auto)]
