// Messages: create, destroy, post and pend.
#![tactic(auto)]

ghost use Rattle.std.specs.Prelude.{◌≡◌};
ghost use Rattle.spec_messages.specs.Messages.{passed, create_message, destroy_message, hand_over, post_message, receive, pend_message};

use code_kernel::conditions::awaits;
use code_kernel::records::no_message;
use code_kernel_find::{by_id, firsts, free};
use code_moves::states;
use spec_calls::call::Call;
use spec_kernel::records::{Condition, Kernel, Message, Wake};

// The record in other hands; channel 0 is held.
fn passed(r: Message, owner: u8, sender: u8, channel: u8) -> Message
    ensures { result ≡ passed owner sender channel r }
{
    Message {
        owner,
        sender,
        channel,
        ..r
    }
}

pub fn create_message(k: Kernel, c: Call) -> Kernel
    ensures { result ≡ create_message k c }
{
    let id = free::free_message(k.messages);
    let r = Message {
        live: true,
        owner: k.runner,
        sender: k.runner,
        kind: c.b,
        size: c.c,
        address: c.d,
        channel: 0,
    };
    states::filed(k, id, r)
}

pub fn destroy_message(k: Kernel, c: Call) -> Kernel
    ensures { result ≡ destroy_message k c }
{
    states::filed(k, c.a, no_message())
}

// Thread t, which waits for it, receives message m as its reply and wakes.
fn hand_over(k: Kernel, m: u8, t: u8) -> Kernel
    ensures { result ≡ hand_over m t k }
{
    let r = by_id::message_at(k.messages, m);
    let s = by_id::thread_at(k.threads, t as u16);
    states::placed(
        states::filed(k, m, passed(r, t, k.runner, 0)),
        t,
        code_threads::awake(s, Wake::Met, m),
    )
}

pub fn post_message(k: Kernel, c: Call) -> Kernel
    ensures { result ≡ post_message k c }
{
    let s = by_id::thread_at(k.threads, c.b);
    let channel = (c.c % 256) as u8;
    let t = (c.b % 256) as u8;
    if awaits(s.condition, channel) {
        return hand_over(k, c.a, t);
    }
    let r = by_id::message_at(k.messages, c.a);
    states::filed(k, c.a, passed(r, t, k.runner, channel))
}

// The owner takes message m out of its channel and holds it.
fn receive(k: Kernel, m: u8) -> Kernel
    ensures { result ≡ receive m k }
{
    let r = by_id::message_at(k.messages, m);
    states::filed(k, m, passed(r, r.owner, r.sender, 0))
}

pub fn pend_message(k: Kernel, c: Call) -> Kernel
    ensures { result ≡ pend_message k c }
{
    let m = firsts::next_message(k.messages, k.posted, k.runner, c.b);
    if m == 255 {
        code_threads::block(k, Condition::ForMessage(c.b), c.c)
    } else {
        receive(k, m)
    }
}
