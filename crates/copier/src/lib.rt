// The copier: each event of a message is written out again into a lent buffer, so that what is drained from it is the message's plain
// copy. Reader and writer by value, the event still owed and the place reached in it.
#![tactic(auto)]

ghost use Rattle.std.specs.Prelude.{◌≡◌, length};
ghost use Rattle.layout.specs.Limits.{base};
ghost use Rattle.copying.specs.Copy.{copy};
ghost use Rattle.turns.specs.Turns.{Stops};
ghost use Rattle.copier.specs.Copier.{copy_of};
ghost use Rattle.copier.specs.Calls.{result_of, copied, over, started_by, started, sent_by, drained, changed};
ghost use Rattle.copier.specs.Feeding.{finished, Ready};

use copier_refusals::check_copier;
use istream::IStream;
use ostream::{Counted, OStream};
use owed::Owed;
pub use turns::Answer;
use turns::{Stop, run};
use types::Error;

// The event still owed and the place reached in it are the state that 01 names; the place is not in force where nothing is owed.
#[derive(Clone, Copy)]
pub struct Copier {
    pub reader: IStream,
    pub writer: OStream,
    pub owed: Owed,
    pub place: u8,
}

// The bytes used of the chunk, the answer or the refusal, and the state after the call.
#[derive(Clone, Copy)]
pub struct Copied {
    pub used: usize,
    pub answer: Result<Answer, Error>,
    pub copier: Copier,
}

// What another call answers, or the refusal, and the state after it: of an opening, that the buffer was taken; of a drain, how many bytes
// of it the caller has to send.
#[derive(Clone, Copy)]
pub struct Answered<T> {
    pub answer: Result<T, Error>,
    pub copier: Copier,
}

// What a call leaves: where it stopped, and the writer's places.
fn finish(writer: OStream, stop: Stop) -> Copied
    ensures { result ≡ finished writer stop }
{
    Copied {
        used: stop.used,
        answer: stop.answer,
        copier: Copier {
            reader: stop.reader,
            writer: OStream {
                offset: stop.pos,
                depth: stop.depth,
                ..writer
            },
            owed: stop.owed,
            place: stop.place,
        },
    }
}

impl Copier {
    // A copier over a buffer from the offset on.
    #[tactic(auto, unfolding(crate::specs::Calls::started))]
    pub fn new(buf: &[u8], offset: usize) -> Answered<()>
        ensures { started_by result ≡ started (length buf.now) offset }
    {
        let opened = OStream::with_flush(buf, offset);
        Answered {
            answer: opened.answer.map(|_| ()),
            copier: Copier {
                reader: IStream::new(),
                writer: opened.stream,
                owed: Owed::Nothing,
                place: 0,
            },
        }
    }

    // What the writer answered, and the copier over the writer that it left.
    fn over(self, counted: Counted) -> Answered<usize>
        ensures { result ≡ record { answer = counted.answer; copier = over self counted.stream } }
    {
        Answered {
            answer: counted.answer,
            copier: Copier {
                writer: counted.stream,
                ..self
            },
        }
    }

    // The caller drains the buffer: as many bytes as answered are to be sent, and writing starts at 0.
    #[tactic(auto, unfolding(crate::specs::Calls::drained))]
    pub fn flush(self, buf: &[u8]) -> Answered<usize>
        ensures { sent_by result ≡ drained self (length buf.now) }
    {
        self.over(self.writer.flush(buf))
    }

    // Another buffer from the offset on. The answer counts the old one's bytes, which the caller still sends.
    #[tactic(auto, unfolding(crate::specs::Calls::changed))]
    pub fn buffer_set(self, old: &[u8], new: &[u8], offset: usize) -> Answered<usize>
        ensures { sent_by result ≡ changed self (length old.now) (length new.now) offset }
    {
        self.over(self.writer.buffer_set(old, new, offset, true))
    }

    // Reads the chunk event by event and writes each out again, until the buffer is full, the chunk is spent or the message is broken.
    pub fn feed(self, chunk: &[u8], buf: &mut [u8]) -> Copied
        ensures { result_of result buf.new ≡ copied self chunk.now buf.old }
    {
        let check = check_copier(self.reader, self.writer, self.owed, self.place, buf.len());
        if let Err(error) = check {
            return Copied {
                used: 0,
                answer: Err(error),
                copier: self,
            };
        }
        finish(self.writer, self.carry(chunk, buf))
    }

    // The call of a sound copier whose reader goes on: what is owed goes out first. (`written` in turns stops so too; it starts at the
    // output's first byte, and has the way with no test for the buffer's end before that.)
    fn carry(self, chunk: &[u8], buf: &mut [u8]) -> Stop
        requires { Ready self (length buf.old) }
        ensures { Stops (copy base (copy_of self) chunk.now buf.old) result buf.new }
    {
        let pos = self.writer.offset;
        let place = self.place as usize;
        let output = self.owed.output();
        let len = output.len();
        let room = buf.len() - pos;
        let end = output.put(buf, pos, place);
        if room + place < len {
            return Stop {
                used: 0,
                answer: Ok(Answer::Full),
                reader: self.reader,
                depth: self.writer.depth,
                pos: end,
                owed: self.owed,
                place: (place + (end - pos)) as u8,
            };
        }
        run(self.reader, end, chunk, buf)
    }
}
