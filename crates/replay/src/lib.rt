// The public face, and all that a caller depends on: a call on any state with a log, append, and undo; the same on a stored image, and the
// image written and read; and for whoever runs many calls or undos from a state that is known to keep its rules, both without the test,
// the fresh state, and when two states are the same.
#![tactic(auto)]

pub mod images;
pub mod logs;
pub mod undos;

pub use code_answers::recorded;
pub use code_answers_undo::kept::undo_kept;
pub use code_kernel::records::fresh;
pub use code_notes_frame::last::call_bytes;
pub use code_notes_same::same_kernel;
