// The writer: fields into a lent buffer, and the caller drains it. The Rust's ostream.rs; each call takes the state and hands the new
// one back. A call that meets the buffer's end answers "full" with how many of its bytes are out, and goes on from that place when it
// is made again.
// The state, opening and drains are here, the writing calls in `scalar`, `fixlen`, `array` and `sequence`.
#![tactic(auto)]

mod array;
mod fixlen;
mod scalar;
mod sequence;

ghost use Rattle.std.specs.Prelude.{◌≡◌, ◌≤◌, true, false, length};
ghost use Rattle.ostream.specs.Stream.{lazy_depth, sound_stream, committed, opened};
ghost use Rattle.ostream.specs.Private.{Clears, nest_of, start_of, through_to, settled, unwritten, counted_at};
ghost use Rattle.ostream.specs.Emission.{refused};
ghost use Rattle.ostream.specs.Buffer.{opening, draining, changing};

use buffers::{Moved, change, drain};
use checks::unfit;
use emit::Cursor;
use held::Held;
use outcomes::Reach;
use places::{Nest, clear};
use types::{Error, LAZY_SEQ_DEPTH};

// A writer's state. `offset` is where the next byte goes; `depth` counts the open sequences; `pending` has the ids of the innermost
// `npending` of them, whose headers are held back, and zero elsewhere. (Eight places in fixed memory, as 01 has them. The fields' order is
// for speed.)
#[derive(Clone, Copy)]
pub struct OStream {
    pub offset: usize,
    pub pending: [u32; LAZY_SEQ_DEPTH],
    pub depth: u16,
    pub npending: u16,
}

// What a call comes to that is not refused: all its bytes are out; or the buffer is full, and that many are out.
#[derive(Clone, Copy)]
pub enum Answer {
    Done,
    Full(usize),
}

// And the state, which a refusal hands back as it was. (This and `Counted` are types of their own, and no generic one as
// the copier's `Answered`: their names stand in the definitions of all calls.)
#[derive(Clone, Copy)]
pub struct Written {
    pub answer: Result<Answer, Error>,
    pub stream: OStream,
}

// What a call comes to that answers a position: that many bytes stand below it.
#[derive(Clone, Copy)]
pub struct Counted {
    pub answer: Result<usize, Error>,
    pub stream: OStream,
}

impl Written {
    // What the slow form comes to, made again by its variants and fields: handed on whole it stays in memory (with none of this, small
    // integers and strings took 1.5 times as long).
    fn rebuilt(self) -> Written
        ensures { result ≡ self }
    {
        let stream = self.stream.rebuilt();
        match self.answer {
            Ok(Answer::Done) => Written {
                answer: Ok(Answer::Done),
                stream,
            },
            Ok(Answer::Full(out)) => Written {
                answer: Ok(Answer::Full(out)),
                stream,
            },
            Err(e) => Written {
                answer: Err(e),
                stream,
            },
        }
    }
}

impl OStream {
    // ---- states and answers

    // The state, rebuilt from its fields, likewise (docs/PERFORMANCE.md).
    fn rebuilt(self) -> OStream
        ensures { result ≡ self }
    {
        let pending = self.pending;
        OStream {
            offset: self.offset,
            pending,
            depth: self.depth,
            npending: self.npending,
        }
    }

    // A writer at the offset, with no sequence open: its places are of a fixed size, all zero.
    fn install(offset: usize) -> OStream
        ensures { result ≡ opened offset }
    {
        OStream {
            offset,
            depth: 0,
            pending: [0; LAZY_SEQ_DEPTH],
            npending: 0,
        }
    }

    // Whether the state can be that of a writer over a buffer of this size.
    pub fn sound(self, size: usize) -> bool
        ensures { result ≡ sound_stream self size }
    {
        self.nest().sound_for(self.offset, size)
    }

    // The sequences that are open.
    fn nest(self) -> Nest
        ensures { result ≡ nest_of self }
    {
        let pending = self.pending;
        Nest {
            places: pending,
            depth: self.depth,
            held: self.npending,
        }
    }

    // Where a call writes, that goes on from a place.
    fn start(self, place: usize) -> Cursor
        ensures { result ≡ start_of self place }
    {
        Cursor {
            pos: self.offset,
            skip: place,
        }
    }

    // The ids that are held back, of a state that was tested. (Without the fact, here and in `commit`, more than eight would have to be cut
    // off: a test that no call needs, and `zeroed` and the headers would be those of eight at most.)
    fn held(self) -> Held
        requires { self.npending ≤ lazy_depth }
        ensures { (result.places ≡ self.pending) × (result.count ≡ self.npending) }
    {
        Held::of(self.nest())
    }

    fn refuse(self, e: Error) -> Written
        ensures { result ≡ refused self e }
    {
        Written {
            answer: Err(e),
            stream: self,
        }
    }

    // The state once no id is held any more, at a depth. (`settle` asks its callers for it.)
    fn commit(mut self, depth: u16) -> OStream
        requires { self.npending ≤ lazy_depth }
        ensures { result ≡ committed self depth }
    {
        let pending = self.pending;
        let cleared = clear(pending, self.npending as usize);
        self.pending = cleared;
        self.npending = 0;
        self.depth = depth;
        self
    }

    // The answer of a call that writes, by what it comes to: once all is out, no id is held any more. (A call whose bytes are out has had
    // its state tested.)
    fn settle(mut self, size: usize, outcome: Result<Reach, Error>, depth: u16) -> Written
        requires { Clears self outcome }
        ensures { result ≡ settled self size (committed self depth) outcome }
    {
        match outcome {
            Ok(Reach::Through(end)) => {
                let next = self.commit(depth);
                next.done(end)
            }
            Ok(Reach::Full(out)) => {
                self.offset = size;
                Written {
                    answer: Ok(Answer::Full(out)),
                    stream: self,
                }
            }
            Err(e) => self.refuse(e),
        }
    }

    // The answer of a call whose bytes are all out, up to a position, and that holds nothing.
    fn done(mut self, end: usize) -> Written
        ensures { result ≡ through_to self end }
    {
        self.offset = end;
        Written {
            answer: Ok(Answer::Done),
            stream: self,
        }
    }

    // The answer of a call that writes nothing and leaves another state.
    fn alter(self, place: usize, next: OStream) -> Written
        ensures { result ≡ unwritten self place next }
    {
        if 0 < place {
            return self.refuse(Error::PlaceBeyond);
        }
        Written {
            answer: Ok(Answer::Done),
            stream: next,
        }
    }

    // ---- opening, drain, buffer change

    // A writer at the offset; `drained`, here and in `buffer_set`, is 01's flag: whether the caller drains the buffer.
    #[tactic(auto, unfolding(crate::specs::Buffer::opening))]
    fn open(size: usize, offset: usize, drained: bool) -> Written
        ensures { result ≡ opening size offset drained }
    {
        if unfit(size, offset, drained) {
            OStream::install(0).refuse(Error::BadBuffer)
        } else {
            Written {
                answer: Ok(Answer::Done),
                stream: OStream::install(offset),
            }
        }
    }

    // A writer over the buffer, which is not drained.
    pub fn new(buf: &[u8]) -> OStream
        ensures { result ≡ opened 0 }
    {
        OStream::install(0)
    }

    // A writer over the buffer, which is not drained, with its first bytes reserved.
    pub fn with_offset(buf: &[u8], offset: usize) -> Written
        ensures { result ≡ opening (length buf.now) offset false }
    {
        OStream::open(buf.len(), offset, false)
    }

    // A writer over a buffer that the caller drains.
    pub fn with_flush(buf: &[u8], offset: usize) -> Written
        ensures { result ≡ opening (length buf.now) offset true }
    {
        OStream::open(buf.len(), offset, true)
    }

    // How many bytes of the buffer are used.
    pub fn bytes_used(self) -> usize
        ensures { result ≡ self.offset }
    {
        self.offset
    }

    // The answer of a drain or a buffer change, and the state at the new position.
    fn count(mut self, moved: Result<Moved, Error>) -> Counted
        ensures { result ≡ counted_at self moved }
    {
        if let Ok(to) = moved {
            self.offset = to.next;
        }
        Counted {
            answer: moved.map(|to| to.sent),
            stream: self,
        }
    }

    // The caller drains the buffer: as many bytes as answered are to be sent, and writing starts at 0.
    #[tactic(auto, using(crate::proofs::Buffers::counted_is), unfolding(crate::specs::Stream::sound_stream, crate::specs::Buffer::draining))]
    pub fn flush(self, buf: &[u8]) -> Counted
        ensures { result ≡ draining self (length buf.now) }
    {
        let moved = drain(self.offset, self.nest(), buf.len());
        self.count(moved)
    }

    // Another buffer from the offset on. The answer counts the old one's bytes, which the caller of a drained writer still sends.
    #[tactic(auto, using(crate::proofs::Buffers::counted_is), unfolding(crate::specs::Stream::sound_stream, crate::specs::Buffer::changing))]
    pub fn buffer_set(self, old: &[u8], new: &[u8], offset: usize, drained: bool) -> Counted
        ensures { result ≡ changing self (length old.now) (length new.now) offset drained }
    {
        let moved = change(
            self.offset,
            self.nest(),
            old.len(),
            new.len(),
            offset,
            drained,
        );
        self.count(moved)
    }
}
