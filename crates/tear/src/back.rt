// One reading of a torn message: a sum over the lines of its events, as `list_events` prints them.
use crate::draw::{Cuts, Turn};
use last_line::Verdict;
use listing::{Listing, Outlet, list};
use std::io;

// What a reading comes to: it is the same for the same events, and for others hardly ever.
#[derive(Clone, Copy, PartialEq, Eq)]
pub struct Sum {
    sum: u64,
    bytes: u64,
}

// 33 times the sum, and the byte.
fn plus(sum: u64, b: u8) -> u64 {
    (sum << 5).wrapping_add(sum).wrapping_add(u64::from(b))
}

impl Sum {
    // The lines are added.
    fn with(self, text: &[u8]) -> Sum {
        Sum {
            sum: text.iter().fold(self.sum, |sum, &b| plus(sum, b)),
            bytes: self.bytes.wrapping_add(text.len() as u64),
        }
    }
}

impl Outlet for Sum {
    fn send(&mut self, text: &[u8]) {
        *self = self.with(text);
    }
}

// The bytes, torn and read: the lines of a chunk, as far as there is room for them, and where it is spent another chunk. At the end the
// verdict stays; where it isn't complete there is no sum. (Tried as `loop`: its measure stayed open, since the end is drawn at random.
// The text is fixed memory.)
pub fn read(log: Option<&impl Print>, bytes: &[u8], seed: u64) -> io::Result<Option<Sum>> {
    let mut text = [0u8; 65536];
    let mut listing = Listing::new();
    let mut cuts = Cuts::new(seed, bytes);
    let mut s = Sum { sum: 0, bytes: 0 };
    for _ in 0..u64::MAX {
        listing = list(listing, cuts.chunk, &mut text, &mut s);
        if cuts.turn(log)? == Turn::End {
            break;
        }
    }
    s = s.with(listing.text(&text));
    Ok((listing.verdict == Verdict::Complete).then_some(s))
}
