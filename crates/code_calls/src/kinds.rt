// The table of call kinds.
ghost use Rattle.std.specs.Prelude.{◌≡◌};
ghost use Rattle.spec_calls.specs.Kinds.{kind_of, names, id_named};

use spec_calls::call::Call;
use spec_calls::kinds::{Caller, Kind, LAST_KIND, Which};

const ROWS: usize = LAST_KIND as usize + 1;

// A row has a word for each field of `Kind`, in their order: caller, used fields (a is 1, b is 2, c is 4, d is 8), thread, semaphore,
// event, message, flag.
macro_rules! row {
    ($caller:ident $used:literal $thread:ident $semaphore:ident $event:ident $message:ident $flag:ident) => {
        Kind {
            caller: Caller::$caller,
            used: $used,
            thread: Which::$thread,
            semaphore: Which::$semaphore,
            event: Which::$event,
            message: Which::$message,
            flag: Which::$flag,
        }
    };
}

const NO_KIND: Kind = row!(Thread 0 Nobody Nobody Nobody Nobody Nobody);

// The table stands once, behind a reference: by value it would be made anew at each look. Behind a row stands the line of text that
// `records` reads for its kind.
const KINDS: &[Kind; ROWS] = &[
    row!(Thread 0 Nobody Nobody Nobody Nobody Nobody), // no kind
    row!(Interrupt 0 Any Any Nobody Nobody Nobody), // 1: tick
    row!(ThreadOrBoot 1 New Nobody Nobody Nobody Nobody), // 2: create thread A
    row!(Thread 1 A Nobody Nobody Any Nobody), // 3: destroy thread A
    row!(Thread 3 A Nobody Nobody Nobody Nobody), // 4: set priority of A to B
    row!(Thread 1 A Nobody Nobody Nobody Nobody), // 5: reset priority of A
    row!(Thread 0 Runner Nobody Nobody Nobody Nobody), // 6: yield
    row!(Thread 4 Runner Nobody Nobody Nobody Nobody), // 7: sleep C
    row!(Thread 0 Nobody Nobody Nobody Nobody Nobody), // 8: push unscheduled
    row!(Thread 0 Nobody Nobody Nobody Nobody Nobody), // 9: pop unscheduled
    row!(Thread 0 Nobody Nobody Nobody Nobody Nobody), // 10: pop all unscheduled
    row!(Thread 0 Nobody Nobody Nobody Nobody Nobody), // 11: push critical
    row!(Thread 0 Nobody Nobody Nobody Nobody Nobody), // 12: pop critical
    row!(Thread 0 Nobody Nobody Nobody Nobody Nobody), // 13: pop all critical
    row!(ThreadOrBoot 6 Nobody New Nobody Nobody Nobody), // 14: create semaphore count B maximum C
    row!(Thread 1 Waiter A Nobody Nobody Nobody), // 15: destroy semaphore A
    row!(Thread 13 Nobody A Nobody Nobody Nobody), // 16: make semaphore A periodic delay C period D
    row!(Thread 1 Nobody A Nobody Nobody Nobody), // 17: remove periodic A
    row!(Thread 5 Runner A Nobody Nobody Nobody), // 18: pend semaphore A ? timeout C
    row!(Thread 1 Waiter A Nobody Nobody Nobody), // 19: post semaphore A
    row!(ThreadOrBoot 15 Any Nobody A Nobody Nobody), // 20: load event A mode B mask C values D
    row!(Thread 5 Runner Nobody A Nobody Nobody), // 21: pend event A ? timeout C
    row!(Thread 1 Any Nobody Bit Nobody Nobody), // 22: set bit A
    row!(Thread 1 Any Nobody Bit Nobody Nobody), // 23: clear bit A
    row!(Thread 14 Nobody Nobody Nobody New Nobody), // 24: create message type B size C address D
    row!(Thread 1 Nobody Nobody Nobody A Nobody), // 25: destroy message A
    row!(Thread 7 B Nobody Nobody A Nobody), // 26: post message A to thread B channel C
    row!(Thread 6 Runner Nobody Nobody Taken Nobody), // 27: pend message mask B ? timeout C
    row!(Interrupt 1 Waiter A Nobody Nobody Nobody), // 28: interrupt post semaphore A
    row!(Interrupt 1 Any Nobody Bit Nobody Nobody), // 29: interrupt set bit A
    row!(Interrupt 1 Any Nobody Bit Nobody Nobody), // 30: interrupt clear bit A
    row!(Thread 0 Nobody Nobody Nobody Nobody New), // 31: create flag
    row!(Thread 1 Waiter Nobody Nobody Nobody A), // 32: destroy flag A
    row!(Thread 5 Runner Nobody Nobody Nobody A), // 33: pend flag A ? timeout C
    row!(Thread 1 Any Nobody Nobody Nobody A), // 34: post flag A
];

// The row of the call's kind; what is no kind has the first.
pub fn kind_of(c: Call) -> Kind
    ensures { result ≡ kind_of c }
{
    let i = c.kind as usize;
    if i < ROWS { KINDS[i] } else { NO_KIND }
}

// Whether a call names one by its field a or b.
pub fn names(which: Which) -> bool
    ensures { result ≡ names which }
{
    which == Which::A || which == Which::B
}

pub fn id_named(which: Which, c: Call) -> u16
    ensures { result ≡ id_named which c }
{
    if which == Which::B { c.b } else { c.a as u16 }
}

// A call and the row of its kind, looked up once.
#[derive(Clone, Copy)]
pub struct Ruled {
    pub call: Call,
    pub row: Kind,
    ghost is_its: { row ≡ kind_of call },
}

pub fn with_row(c: Call) -> Ruled
    ensures { result.call ≡ c }
{
    Ruled {
        call: c,
        row: kind_of(c),
    }
}
