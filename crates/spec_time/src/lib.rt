// What a tick does: uptime, time-outs, sleepers and periodic semaphores; and the laws of it.
#![tactic(auto)]
