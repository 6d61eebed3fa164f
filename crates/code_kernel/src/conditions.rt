// What a thread's condition says.
ghost use Rattle.std.specs.Prelude.{◌≡◌};
ghost use Rattle.spec_kernel.specs.Conditions.{ready_for, is_ready, masks, awaits};

use spec_kernel::records::{Condition, Thread};

pub fn ready_for(c: Condition) -> bool
    ensures { result ≡ ready_for c }
{
    matches!(c, Condition::Ready)
}

// Whether a live thread is ready.
pub fn is_ready(t: Thread) -> bool
    ensures { result ≡ is_ready t }
{
    t.live && ready_for(t.condition)
}

// Whether the mask has the channel; its lowest bit stands for channel 1.
pub fn masks(mask: u16, channel: u8) -> bool
    ensures { result ≡ masks mask channel }
{
    0 < channel && base_bits::bit(mask as u32, channel - 1)
}

// Whether a thread of this condition waits for messages on the channel.
pub fn awaits(c: Condition, channel: u8) -> bool
    ensures { result ≡ awaits c channel }
{
    matches!(c, Condition::ForMessage(mask) if masks(mask, channel))
}
