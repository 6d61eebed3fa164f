// How many trials there were, and what came of them.
ghost use Rattle.std.specs.Prelude.{◌≡◌};
ghost use Rattle.try_entries.specs.Tallies.{outcome, tally, checked_by, numbered_by, counted_by};

// The trials of one kind: those on a broken state, those refused for another reason, those accepted; and of all of them the wrong ones.
#[derive(Clone, Copy)]
pub struct Tally {
    pub broken: u64,
    pub refused: u64,
    pub accepted: u64,
    pub wrong: u64,
}

// One trial: the number that came back, and whether all was right.
#[derive(Clone, Copy)]
pub struct Outcome {
    pub number: u8,
    pub right: bool,
}

pub fn ended(number: u8, right: bool) -> Outcome
    ensures { result ≡ outcome number right }
{
    Outcome { number, right }
}

// No trial yet.
pub fn nothing() -> Tally
    ensures { result ≡ tally 0 0 0 0 }
{
    Tally {
        broken: 0,
        refused: 0,
        accepted: 0,
        wrong: 0,
    }
}

// One more wrong, unless this holds.
#[tactic(auto, unfolding(crate::specs::Tallies::checked_by))]
pub fn checked(t: Tally, holds: bool) -> Tally
    ensures { result ≡ checked_by t holds }
{
    if holds {
        t
    } else {
        Tally {
            wrong: t.wrong.wrapping_add(1),
            ..t
        }
    }
}

// One more with this number.
#[tactic(auto, unfolding(crate::specs::Tallies::numbered_by))]
fn numbered(t: Tally, number: u8) -> Tally
    ensures { result ≡ numbered_by t number }
{
    match number {
        0 => Tally {
            accepted: t.accepted.wrapping_add(1),
            ..t
        },
        14 => Tally {
            broken: t.broken.wrapping_add(1),
            ..t
        },
        _ => Tally {
            refused: t.refused.wrapping_add(1),
            ..t
        },
    }
}

// One trial more.
#[tactic(auto, unfolding(crate::specs::Tallies::counted_by))]
pub fn counted(t: Tally, o: Outcome) -> Tally
    ensures { result ≡ counted_by t o }
{
    checked(numbered(t, o.number), o.right)
}
