// What the calls of the comparison and of scripts share: the desk, words on which a call finds its state and numbers and leaves its answer
// (compare/PROTOCOL.md), and the numbers of other widths that a word holds. Beyond the desk's end is zero, and nothing is written.

#![tactic(auto)]

pub mod calls;

// A desk of the size that a script's calls have: the protocol's words, one at each place.
pub type Desk = [u64; 32];

pub const BLANK: Desk = [0; 32];

pub fn word(desk: &[u64], i: usize) -> u64 {
    desk.get(i).copied().unwrap_or(0)
}

// Words from a place on, as far as the desk goes. (Word by word, each with its own test: a loop over both cut to one length becomes a call of
// `memcpy` where the words are a function's own, and an archive for C is to need nothing from outside.)
pub fn lay(desk: &mut [u64], at: usize, words: &[u64]) {
    for (i, n) in words.iter().enumerate() {
        if let Some(place) = desk.get_mut(at.saturating_add(i)) {
            *place = *n;
        }
    }
}

// A word's low bits, a function for each width: `as` drops no bits, and a generic one would need a trait with these three bodies.
pub fn narrow(n: u64) -> u32 {
    (n & 0xffff_ffff) as u32
}

pub fn short(n: u64) -> u16 {
    (n & 0xffff) as u16
}

pub fn byte(n: u64) -> u8 {
    (n & 0xff) as u8
}
