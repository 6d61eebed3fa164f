// Numbers as bytes, the lowest first; a pen on a lent log; a note behind the used part of a log. It knows nothing of kernels.
#![tactic(auto)]

pub mod bytes;
pub mod logs;
pub mod pens;
