// The first thread of a list or queue, and the next message of a thread; 255 for none.
ghost use Rattle.std.specs.Prelude.{◌≡◌, ℕ, Bool};
ghost use Rattle.std.specs.Fn.{FnReturnsAt};
ghost use Rattle.base_queue.specs.Lists.{keep, first_of};
ghost use Rattle.base_queue.specs.Queues.{items};
ghost use Rattle.spec_kernel.specs.Channels.{is_for, first_for};
ghost use Rattle.code_kernel_find.specs.AtHome.{first_at_home};

use base_queue::Queue;
use code_kernel::conditions::masks;
use code_kernel::places;
use code_kernel::records::{no_message, no_thread, record_at};
use spec_kernel::records::{Message, Thread};
use spec_kernel::sizes;

pub fn first_at_home(threads: [Thread; sizes::THREADS], places: Queue, home: u16) -> u8
    ensures { result ≡ first_at_home threads places home }
{
    first_member(
        &places,
        |&t| places::home_of(record_at(&threads, t as usize, no_thread())) == home,
    )
}

pub fn next_message(messages: [Message; sizes::MESSAGES], posted: Queue, t: u8, mask: u16) -> u8
    ensures { result ≡ first_for messages posted t mask }
{
    first_member(
        &posted,
        |&m| is_for(t, mask, record_at(&messages, m as usize, no_message())),
    )
}

// The first member that passes the test.
fn first_member<F: Fn(&u8) -> bool>(q: &Queue, passes: F) -> u8
    requires { F.IsAlwaysCallable passes }
    ensures { (test : ℕ → Bool) → ((x : ℕ) (b : Bool) → FnReturnsAt F.Fn passes x b → b ≡ test x)
        → result ≡ first_of (keep test (items q.now)) }
{
    q.members().iter().copied().find(passes).unwrap_or(255)
}

// Whether the message is thread t's to take, on a masked channel.
fn is_for(t: u8, mask: u16, r: Message) -> bool
    ensures { result ≡ is_for t mask r }
{
    r.owner == t && masks(mask, r.channel)
}
