// What a call needs of the state, looked up once.
use spec_kernel::records::{Message, Semaphore};

// Of what a call names: the semaphore's and the message's record, whether the thread or the flag is live and whether the event is TRUE; the
// first that waits for the semaphore or the flag; and the id that comes back. The bytes come last, so that there are no gaps.
#[derive(Clone, Copy)]
pub struct Named {
    pub semaphore: Semaphore,
    pub message: Message,
    pub thread: bool,
    pub truth: bool,
    pub waiter: u8,
    pub found: u8,
    pub flag: bool,
}
