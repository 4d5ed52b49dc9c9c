// The reference reader, the Rust's istream.rs: a machine on bytes whose state is taken and handed back by value.
// A call reads on to the next event and stops there, or gives the verdict once the chunk is spent. No byte is copied or held: a piece of
// a payload is its bounds in the chunk.
// The state and the calls that users make are here; what stands whole in the chunk is read by `read_at_once`, the rest by `read_slowly`.
#![tactic(auto)]

ghost use Rattle.std.specs.Prelude.{◌≡◌};
ghost use Rattle.layout.specs.Limits.{base};
ghost use Rattle.machine.specs.Calls.{fresh};
ghost use Rattle.istream.specs.Stream.{stream_in, sound_stream, status_of, fed_of, heard_of};
ghost use Rattle.istream.specs.Private.{fed_at, fed_by};

pub use call_end::{Answer, Status};
use call_end::{CallEnd, verdict};
use phase::{Carried, Phase, idle, rebuilt, sound, sound_payload};
use read_at_once::{Once, at_once};
use read_slowly::{payload, slowly};
use types::Error;

// What is under way, and what goes along with it.
#[derive(Clone, Copy)]
pub struct IStream {
    pub phase: Phase,
    pub carried: Carried,
}

// Where a reader stands between two calls: as a verdict says, or broken, after which every call is refused. A Result of a Status would be
// no plainer, since nothing is refused here. The event list's last line has three words like these: one type for both would have the crate
// `last_line` stand on the reader.
#[derive(Clone, Copy)]
pub enum Standing {
    Complete,
    Incomplete,
    Invalid,
}

// The bytes read of the chunk, the answer and the state after the call.
#[derive(Clone, Copy)]
pub struct Fed {
    pub read: usize,
    pub answer: Result<Answer, Error>,
    pub stream: IStream,
}

// What a call through a reference answers: the bytes read of the chunk, and the answer.
#[derive(Clone, Copy)]
pub struct Heard {
    pub read: usize,
    pub answer: Result<Answer, Error>,
}

// A call's end: whichever way `feed` goes, it is made here.
#[inline(always)]
fn answered(read: usize, answer: Result<Answer, Error>, phase: Phase, carried: Carried) -> Fed
    ensures { result ≡ fed_at read answer phase carried }
{
    Fed {
        read,
        answer,
        stream: IStream { phase, carried },
    }
}

// The same, from what a call comes to in a crate below.
impl From<CallEnd> for Fed {
    ghost from_gives = { λ w f. f ≡ fed_by w };

    #[inline(always)]
    fn from(w: CallEnd) -> Fed {
        let CallEnd {
            read,
            answer,
            phase,
            carried,
        } = w;
        answered(read, answer, phase, carried)
    }
}

// The slow form, out of line: from any state, byte by byte.
#[inline(never)]
#[tactic(auto, using(crate::proofs::Laws::fed_slowly))]
fn feed_slowly(stream: IStream, chunk: &[u8]) -> Fed
    ensures { result ≡ fed_of base stream chunk.now }
{
    let IStream { phase, carried } = stream;
    Fed::from(slowly(phase, carried, chunk))
}

// The same; the state goes in, and comes back, rebuilt from its numbers (`phase::rebuilt` says why).
#[inline(always)]
fn feed_out_of_line(stream: IStream, chunk: &[u8]) -> Fed
    ensures { result ≡ fed_of base stream chunk.now }
{
    let copy = IStream {
        phase: rebuilt(stream.phase),
        carried: stream.carried,
    };
    let f = feed_slowly(copy, chunk);
    let after = f.stream;
    answered(f.read, f.answer, rebuilt(after.phase), after.carried)
}

impl IStream {
    pub fn new() -> IStream
        ensures { result ≡ stream_in fresh }
    {
        IStream {
            phase: idle(),
            carried: Carried { depth: 0 },
        }
    }

    // Where the message stands after the bytes read so far; incomplete while an event is due.
    #[tactic(auto, using(crate::proofs::Tests::status_complete, crate::proofs::Tests::status_broken, crate::proofs::Tests::status_else))]
    pub fn status(self) -> Standing
        ensures { result ≡ status_of self }
    {
        let phase = self.phase;
        let v = verdict(phase, self.carried);
        match v {
            Status::Complete => Standing::Complete,
            Status::Incomplete => match phase {
                Phase::Broken => Standing::Invalid,
                _ => Standing::Incomplete,
            },
        }
    }

    // Whether a reader can be in this state; a depth beyond 255 has no place in its byte. A payload and a header, in which
    // most short calls begin, are tested here (docs/PERFORMANCE.md).
    #[tactic(auto, using(crate::proofs::Tests::sound_in))]
    pub fn sound(self) -> bool
        ensures { result ≡ sound_stream base self }
    {
        let phase = self.phase;
        if let Phase::Payload(id, r, total, offset) = phase {
            return sound_payload(id, r, total, offset);
        }
        if let Phase::Header(a) = phase {
            return a.sound();
        }
        sound(phase)
    }

    // Reads on to the next event, or to the chunk's end and the verdict.
    #[tactic(auto, using(crate::proofs::Laws::payload_owed, crate::proofs::Laws::from_payload, crate::proofs::Laws::from_spent))]
    pub fn feed(self, chunk: &[u8]) -> Fed
        ensures { result ≡ fed_of base self chunk.now }
    {
        let phase = self.phase;
        let carried = self.carried;
        if let Phase::Payload(id, r, total, offset) = phase {
            if sound_payload(id, r, total, offset) {
                return Fed::from(payload(carried, id, r, total, offset, chunk));
            }
        }
        let q = at_once(carried, phase, chunk);
        match q {
            Some(Once::Done(p, k, e, n)) => answered(n, Ok(Answer::Event(e)), p, k),
            Some(Once::Spent) => {
                let status = verdict(phase, carried);
                answered(0, Ok(Answer::Status(status)), rebuilt(phase), carried)
            }
            None => feed_out_of_line(self, chunk),
        }
    }
}

// The thin feed: the reader is taken out of the reference, fed by value and stored back.
pub fn feed_ref(r: &mut IStream, chunk: &[u8]) -> Heard
    ensures { (result ≡ heard_of (fed_of base r.old chunk.now)) × (r.new ≡ (fed_of base r.old chunk.now).stream) }
{
    let Fed {
        read,
        answer,
        stream,
    } = r.feed(chunk);
    *r = stream;
    Heard { read, answer }
}

// The reader lent by mutable reference, for callers that have it by value: what a main loop calls.
pub fn lent(r: IStream, chunk: &[u8]) -> Fed
    ensures { result ≡ fed_of base r chunk.now }
{
    let mut stream = r;
    let Heard { read, answer } = feed_ref(&mut stream, chunk);
    Fed {
        read,
        answer,
        stream,
    }
}
