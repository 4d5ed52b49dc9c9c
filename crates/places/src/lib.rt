// The eight places of the ids of held sequences, and whether a writer's state is sound, by the numbers that make it up.
#![tactic(auto)]

ghost use Rattle.std.specs.Prelude.{◌≡◌, ◌-◌, ◌≤◌, ◌<◌, leb, eqb, take, drop, set};
ghost use Rattle.layout.specs.Limits.{base};
ghost use Rattle.places.specs.Places.{lazy_depth, every, zeroed, sound_for};

use types::{ID_MAX, LAZY_SEQ_DEPTH, MAX_DEPTH};

// The places, here and below, are an array of eight with a count beside it: a writer's memory is fixed, and it has no heap.

// Whether the first n ids are legal.
fn ids_legal(pending: [u32; LAZY_SEQ_DEPTH], n: usize) -> bool
    ensures { result ≡ every (λ x. leb x base.id) (take n pending) }
{
    pending[..n.min(LAZY_SEQ_DEPTH)]
        .iter()
        .all(|id| *id <= ID_MAX)
}

// Whether the places from n on are zero.
pub fn unused_zero(pending: [u32; LAZY_SEQ_DEPTH], n: usize) -> bool
    ensures { result ≡ every (λ x. eqb x 0) (drop n pending) }
{
    pending[n.min(LAZY_SEQ_DEPTH)..].iter().all(|id| *id == 0)
}

// The first n of some places zeroed, and the others left as they are, whatever they hold. (n is how many a sound state holds: `zeroed` of
// more than eight would be longer than the places.)
pub fn clear(places: [u32; LAZY_SEQ_DEPTH], n: usize) -> [u32; LAZY_SEQ_DEPTH]
    requires { n ≤ lazy_depth }
    ensures { result ≡ zeroed n places }
{
    let mut cleared = places;
    cleared[..n].fill(0); // and no further than the count: 02 wants the unused places left alone
    cleared
}

// The places with one more id behind the first n. (The writer holds one more only where fewer than eight are held.)
pub fn add_id(places: [u32; LAZY_SEQ_DEPTH], n: u16, id: u32) -> [u32; LAZY_SEQ_DEPTH]
    requires { n < lazy_depth }
    ensures { result ≡ set places n id }
{
    let mut more = places;
    more[n as usize] = id;
    more
}

// The places without the last of the first n: that one zero, the others left as they are.
pub fn drop_id(places: [u32; LAZY_SEQ_DEPTH], n: u16) -> [u32; LAZY_SEQ_DEPTH]
    ensures { result ≡ set places (n - 1) 0 }
{
    let mut fewer = places;
    let last = (n as usize).saturating_sub(1);
    if last < LAZY_SEQ_DEPTH {
        fewer[last] = 0;
    }
    fewer
}

// The sequences that are open, by a writer's numbers: how many, how many of the innermost are held back, and the ids of these, outermost
// first. (The fields' order is for speed.)
#[derive(Clone, Copy)]
pub struct Nest {
    pub places: [u32; LAZY_SEQ_DEPTH],
    pub depth: u16,
    pub held: u16,
}

impl Nest {
    // Whether the state with these numbers can be that of a writer over a buffer of this size.
    pub fn sound_for(self, offset: usize, size: usize) -> bool
        ensures { result ≡ sound_for offset self.depth self.held self.places size }
    {
        let Nest {
            places,
            depth,
            held,
        } = self;
        offset <= size
            && held <= LAZY_SEQ_DEPTH as u16
            && held <= depth
            && depth <= MAX_DEPTH as u16
            && ids_legal(places, held as usize)
            && unused_zero(places, held as usize)
    }
}
