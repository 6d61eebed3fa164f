// The copy of a log.
ghost use Rattle.std.specs.Prelude.{◌≡◌};
ghost use Rattle.try_entries.specs.Copies.{copied_to, are_same};

use base_bytes::bytes::same_bytes;
use base_bytes::pens;

// A log, and the copy by which a byte that was written beside a note shows.
#[derive(Drop)]
pub struct Logs {
    pub log: [u8; 16384],
    pub copy: [u8; 16384],
}

// What stands between two places of one is copied to the other; whether both are the same then.
#[tactic(auto, unfolding(crate::specs::Copies::copied_to, crate::specs::Copies::are_same))]
pub fn copied(target: &mut [u8], source: &[u8], from: usize, to: usize) -> bool
    ensures { (target.new ≡ copied_to target.old source.now from to)
        × (result ≡ are_same target.old source.now from to) }
{
    if to < from || from != to && source.len() < to {
        return false;
    }
    if from < to {
        pens::put_all(target, from, &source[from..to]);
    }
    same_bytes(target, 0, source)
}
