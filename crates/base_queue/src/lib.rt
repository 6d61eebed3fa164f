// Queues with a length, and lists and tables of places with their laws. It knows nothing of kernels.
#![tactic(auto)]

ghost use Rattle.std.specs.Prelude.{◌≡◌, ◌≤◌, ◌++◌, [], length, eqb, position};
ghost use Rattle.std.specs.List.{list_all};
ghost use Rattle.base_queue.specs.Lists.{without, place_of, first_of};
ghost use Rattle.base_queue.specs.Queues.{capacity, items, pack, with_last, room_for, is_tidy, Tidy};

// How many places a queue has.
pub const CAPACITY: usize = 64;

const LENGTHS: u8 = CAPACITY as u8;

#[derive(Clone, Copy)]
pub struct Queue {
    pub n: u8,
    pub at: [u8; CAPACITY],
}

// The queue with no place taken.
pub fn empty() -> Queue
    ensures { result ≡ pack [] }
{
    Queue {
        n: 0,
        at: [0u8; CAPACITY],
    }
}

impl Queue {
    // What it holds, first to last.
    pub fn members(&self) -> &[u8]
        ensures { result.now ≡ items self.now }
    {
        if self.n < LENGTHS {
            &self.at[..self.n as usize]
        } else {
            &self.at
        }
    }

    // The place of the first x, if it has one.
    pub fn position(&self, x: u8) -> Option<usize>
        ensures { result ≡ position (λ y. eqb y x) (items self.now) }
    {
        self.members().iter().position(|y| *y == x)
    }

    // With x behind the last, where there is room.
    pub fn push(&mut self, x: u8)
        ensures { self.new ≡ with_last x self.old }
    {
        if self.n < LENGTHS {
            self.at[self.n as usize] = x;
            self.n += 1;
        }
    }

    // With all of these behind the last, where there is room.
    fn extend(&mut self, more: &[u8])
        ensures { Tidy self.old → length (items self.old ++ more.now) ≤ capacity → self.new ≡ pack (items self.old ++ more.now) }
    {
        let n = self.n as usize;
        if n <= CAPACITY && more.len() <= CAPACITY - n {
            self.at[n..n + more.len()].copy_from_slice(more);
            self.n += more.len() as u8;
        }
    }
}

// How many places are taken.
pub fn size(q: Queue) -> usize
    ensures { result ≡ length (items q) }
{
    q.members().len()
}

// The first, or 255 for none.
pub fn first(q: Queue) -> u8
    ensures { result ≡ first_of (items q) }
{
    q.members().first().copied().unwrap_or(255)
}

// The place of the first x, or the number of places taken.
pub fn place_of(q: Queue, x: u8) -> usize
    ensures { result ≡ place_of x (items q) }
{
    q.position(x).unwrap_or(size(q))
}

// Without x.
pub fn without(q: Queue, x: u8) -> Queue
    ensures { result ≡ pack (without x (items q)) }
{
    let mut rest = empty();
    for y in q.members() {
        if *y != x {
            rest.push(*y);
        }
    }
    rest
}

// With x at place i, before the member there; past the end, last. A full queue stays.
pub fn with_at(q: Queue, i: usize, x: u8) -> Queue
    ensures { result ≡ pack (room_for i x (items q)) }
{
    let members = q.members();
    let n = members.len();
    if n == CAPACITY {
        return Queue {
            n: LENGTHS,
            at: q.at,
        };
    }
    let place = i.min(n);
    let mut next = empty();
    next.extend(&members[..place]);
    next.push(x);
    next.extend(&members[place..]);
    next
}

// Whether all of these are 0.
fn all_zero(places: &[u8]) -> bool
    ensures { result ≡ list_all (λ x. eqb x 0) places.now }
{
    places.iter().all(|x| *x == 0)
}

// Whether its length is within it and its unused store 0.
pub fn is_tidy(q: Queue) -> bool
    ensures { result ≡ is_tidy q }
{
    let fits = q.n <= LENGTHS;
    fits && all_zero(&q.at[q.n as usize..])
}
