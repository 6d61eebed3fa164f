// What the table of kinds says of a kind.

// Who may make the call: the running thread, that or nobody at boot, an interrupt.
#[derive(Clone, Copy, PartialEq, Eq)]
pub enum Caller {
    Thread,
    ThreadOrBoot,
    Interrupt,
}

// Which one of a class the call names, or can touch: nobody; that of id a, of id b; the running thread; the first that waits for
// semaphore or flag a; the one that is made; the message that a pend gets; event bit a; any of them.
#[derive(Clone, Copy, PartialEq, Eq)]
pub enum Which {
    Nobody,
    A,
    B,
    Runner,
    Waiter,
    New,
    Taken,
    Bit,
    Any,
}

// Kinds go from 1 to this.
pub const LAST_KIND: u8 = 34;

// A row of the table: `used` has a bit for each field with a meaning, 1 for a, 2 for b, 4 for c, 8 for d.
#[derive(Clone, Copy)]
pub struct Kind {
    pub caller: Caller,
    pub used: u8,
    pub thread: Which,
    pub semaphore: Which,
    pub event: Which,
    pub message: Which,
    pub flag: Which,
}
