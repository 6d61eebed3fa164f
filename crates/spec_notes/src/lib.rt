// The reversal note of a call, its length, the way back, and when an undo accepts; and the theorems on them.
#![tactic(auto)]
