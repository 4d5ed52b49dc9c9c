// The event list of a message, chunk by chunk: the reader's calls on a chunk, and the lines of each event put into a lent buffer, whose
// text goes out where it may have no room for the next. Nothing of the message is held but the reader's state.
#![tactic(auto)]

ghost use Rattle.std.specs.Prelude.{◌≡◌, ◌+◌, ◌*◌, ◌≤◌, ◌<◌, leb, length, take};

use istream::{Answer, IStream, Status};
use last_line::Verdict;
use lines::put_event;

// No line is longer, nor that of a payload byte (`lines_short` of `lines`).
const LINE: u128 = 80;

const BYTE_LINE: u128 = 6;

// The reader, where the text ends that isn't out yet, and where the message stands. (The buffer is lent to each call: held here it would be
// borrowed between the calls too, where the callers write it out.)
#[derive(Clone, Copy)]
pub struct Listing {
    pub stream: IStream,
    pub at: usize,
    pub verdict: Verdict,
}

impl Listing {
    // Before the first byte: no chunk at all is complete.
    pub fn new() -> Listing {
        Listing {
            stream: IStream::new(),
            at: 0,
            verdict: Verdict::Complete,
        }
    }

    // The text that isn't out yet.
    pub fn text(self, out: &[u8]) -> &[u8]
        ensures { self.at ≤ length out.now → result.now ≡ take self.at out.now }
    {
        out.get(..self.at).unwrap_or_default()
    }
}

// Whether the lines of any event of this chunk fit after `at`: `lines` has the law that none is then cut off (`whole_lines`).
fn roomy(at: usize, chunk: &[u8], out: &[u8]) -> bool
    ensures { result ≡ leb (at + (80 + 6 * length chunk.now)) (length out.now) }
{
    at as u128 + (LINE + BYTE_LINE * chunk.len() as u128) <= out.len() as u128
}

// Where the text goes that is to make room. (No closure: `list` would ask of its callers that it may be called.)
pub trait Outlet {
    fn send(&mut self, text: &[u8]);
}

// A chunk's calls, the reader lent to each by mutable reference, and the lines of their events. The text goes out before a call where the
// lines of any event of the chunk might find no room: of the whole chunk, not of its rest, so that no text waits longer than that. Where
// they would find none in all of `out`, nothing is read. (No `for`: how many events a chunk has, its calls alone say.)
pub fn list(l: Listing, chunk: &[u8], out: &mut [u8], outlet: &mut impl Outlet) -> Listing
    ensures unread { length out.old < 80 + 6 * length chunk.now → (result.stream ≡ l.stream) × (result.at ≡ l.at) × (out.new ≡ out.old) }
{
    if !roomy(0, chunk, out) {
        return Listing {
            verdict: Verdict::Incomplete,
            ..l
        };
    }
    let mut stream = l.stream;
    let mut at = l.at;
    let mut rest = chunk;
    loop {
        if !roomy(at, chunk, out) {
            outlet.send(out.get(..at).unwrap_or_default());
            at = 0;
        }
        let told = istream::lent(stream, rest);
        stream = told.stream;
        let verdict = match told.answer {
            Ok(Answer::Event(e)) => {
                at = put_event(out, at, rest, e);
                rest = &rest[told.read..];
                continue;
            }
            Ok(Answer::Status(Status::Complete)) => Verdict::Complete,
            Ok(Answer::Status(Status::Incomplete)) => Verdict::Incomplete,
            Err(_) => Verdict::Invalid,
        };
        return Listing {
            stream,
            at,
            verdict,
        };
    }
}
