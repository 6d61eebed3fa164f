// What the calls on semaphores do: create, destroy, periodic, pend and post; and the laws of it.
#![tactic(auto)]
