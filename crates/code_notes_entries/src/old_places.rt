// Where somebody stood in a queue, and the arrays of a table's places.
ghost use Rattle.std.specs.Prelude.{◌≡◌, set};
ghost use Rattle.base_queue.specs.Queues.{items};
ghost use Rattle.base_queue.specs.Tables.{old_place};

use base_queue::Queue;

// The place of x, or 255 where it has none.
pub fn old_place(q: Queue, x: u8) -> u8
    ensures { result ≡ old_place x (items q) }
{
    let i = base_queue::place_of(q, x);
    if i < base_queue::size(q) {
        i as u8
    } else {
        255
    }
}

// x stored at place i; past the last, nothing changes.
pub fn store<T: Copy>(a: &mut [T], i: usize, x: T)
    ensures { a.new ≡ set a.old i x }
{
    if i < a.len() {
        a[i] = x;
    }
}
