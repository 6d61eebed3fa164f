// What the calls on threads do: blocking and waking, create and destroy, priorities, yield and sleep; and the laws of it.
#![tactic(auto)]
