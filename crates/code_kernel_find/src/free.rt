// The lowest free id, or 255 where there is none.
ghost use Rattle.std.specs.Prelude.{◌≡◌, ◌≤◌, Bool, not, length};
ghost use Rattle.std.specs.Fn.{FnReturnsAt};
ghost use Rattle.spec_kernel.specs.Free.{lowest_free, lowest_clear};
ghost use Rattle.spec_kernel.specs.Sizes.{flag_count};

use spec_kernel::records::{Message, Semaphore, Thread};
use spec_kernel::sizes;

pub fn free_thread(threads: [Thread; sizes::THREADS]) -> u8
    ensures { result ≡ lowest_free (λ x. x.live) 0 threads }
{
    lowest_free(&threads, |r| !r.live)
}

pub fn free_semaphore(semaphores: [Semaphore; sizes::SEMAPHORES]) -> u8
    ensures { result ≡ lowest_free (λ x. x.live) 0 semaphores }
{
    lowest_free(&semaphores, |r| !r.live)
}

pub fn free_message(messages: [Message; sizes::MESSAGES]) -> u8
    ensures { result ≡ lowest_free (λ x. x.live) 0 messages }
{
    lowest_free(&messages, |r| !r.live)
}

// The place of the first record that is free. A function of its own in the program too: written out in its callers, the loop has the
// compiler take the state apart and copy it record by record.
#[inline(never)]
fn lowest_free<T, F: Fn(&T) -> bool>(records: &[T], is_free: F) -> u8
    requires callable { F.IsAlwaysCallable is_free }
    requires few { length records.now ≤ 64 }
    ensures { (live : T → Bool) → ((x : T) (b : Bool) → FnReturnsAt F.Fn is_free x b → b ≡ not (live x))
        → result ≡ lowest_free live 0 records.now }
{
    records.iter().position(is_free).map_or(255, |i| i as u8)
}

pub fn free_flag(flags: u16) -> u8
    ensures { result ≡ lowest_clear flags 0 flag_count }
{
    (0..sizes::FLAG_IDS)
        .find(|&i| !base_bits::bit(flags as u32, i))
        .unwrap_or(255)
}
