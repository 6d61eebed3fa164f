// Whether a table holds each of a set once and nobody else, in the order of a key. It knows nothing of kernels.
#![tactic(auto)]

ghost use Rattle.std.specs.Prelude.{◌≡◌};
ghost use Rattle.base_tables.specs.Taken.{is_taken, is_table};

use base_bits::sets;
use base_queue::{CAPACITY, Queue};

// Whether the members, one after the other, are all of the set, and no member's key is less than that of the one before.
fn is_taken(members: &[u8], set: u64, keys: &[u32; CAPACITY]) -> bool
    ensures { result ≡ is_taken set 0 keys.now members.now }
{
    let mut left = set;
    let mut low = 0;
    for &x in members {
        if !sets::has(left, x) {
            return false;
        }
        let key = keys[usize::from(x)];
        if key < low {
            return false;
        }
        left -= 1 << x;
        low = key;
    }
    left == 0
}

// Whether the table is tidy besides.
pub fn is_table(q: Queue, set: u64, keys: [u32; CAPACITY]) -> bool
    ensures { result ≡ is_table set keys q }
{
    base_queue::is_tidy(q) && is_taken(q.members(), set, &keys)
}
