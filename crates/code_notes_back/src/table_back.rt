// A table of places, put back: who was touched is out, and back at its old place.
ghost use Rattle.std.specs.Prelude.{◌≡◌, eqb, length, get_or};
ghost use Rattle.base_queue.specs.Lists.{keep};
ghost use Rattle.base_queue.specs.Queues.{items, pack};
ghost use Rattle.spec_notes.specs.Back.{merge, put_back_all};

use base_bytes::bytes::byte_at;
use base_queue::{CAPACITY, Queue};

// `at` has at each old place who stood there (255: nobody touched), `out` says of each id whether it was touched.
pub fn put_back_all(q: Queue, out: [u8; CAPACITY], at: [u8; CAPACITY]) -> Queue
    ensures { result ≡ put_back_all out at q }
{
    merged(&at, &kept(q, &out))
}

// Those that nobody touched, in their order.
fn kept(q: Queue, out: &[u8; CAPACITY]) -> Queue
    ensures { result ≡ pack (keep (λ x. eqb (get_or out.now x 0) 0) (items q)) }
{
    let mut rest = base_queue::empty();
    for x in q.members() {
        let stays = byte_at(out, *x as usize) == 0;
        if stays {
            rest.push(*x);
        }
    }
    rest
}

// Place by place: the noted member of that place, or else the next one that stayed; with neither, the end.
fn merged(at: &[u8; CAPACITY], q: &Queue) -> Queue
    ensures { result ≡ pack (merge (length at.now) at.now (items q.now)) }
{
    let stayed = q.members();
    let mut a = [0; CAPACITY];
    let mut j = 0;
    for (i, x) in at.iter().enumerate() {
        if *x != 255 {
            a[i] = *x;
        } else if j < stayed.len() {
            a[i] = stayed[j];
            j += 1;
        } else {
            return Queue { n: i as u8, at: a };
        }
    }
    Queue {
        n: CAPACITY as u8,
        at: a,
    }
}
