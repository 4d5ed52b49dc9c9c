// The copier's loop, nothing being owed when it starts: turn by turn an event is written out again, a payload's bytes go out, or what
// stands in its shortest form already goes as it came, until the buffer is full, the chunk is spent or the message is broken. The buffer
// comes with a position, and not as the slice from there on: what `Puts` says is of the whole buffer, and so are the callers' contracts.
#![tactic(auto)]

ghost use Rattle.std.specs.Prelude.{◌≡◌, ◌+◌, ◌<◌};
ghost use Rattle.copying.specs.Owed.{due_in};
ghost use Rattle.istream.specs.Stream.{state_of};
ghost use Rattle.turns.specs.Turns.{event_turn, event_buf, heard_turn, heard_buf, cut_off, pause, GoesOn, InPayload, Turned, Ran, later};

use as_is::as_is;
use emit::put_rest;
use istream::{Fed, IStream, Status};
use output::OUTPUT_MAX;
use owed::Owed;
use owing::owe;
use phase::{Phase, idle};
use types::{Error, RawType};

// What a call that isn't refused answers.
#[derive(Clone, Copy)]
pub enum Answer {
    Full,
    Status(Status),
}

// Where a call stops: the bytes used, the answer or the refusal, and the state, but for the writer's places. (The event still owed and the
// place reached in it are the state that 01 names; the place is not in force where nothing is owed.)
#[derive(Clone, Copy)]
pub struct Stop {
    pub used: usize,
    pub answer: Result<Answer, Error>,
    pub reader: IStream,
    pub depth: u16,
    pub pos: usize,
    pub owed: Owed,
    pub place: u8,
}

// What a turn comes to, nothing being owed before it: what it read is out, and the call goes on from this reader, with so many bytes of the
// chunk used, at this position; or the call stops. (No Result: a stop is no failure, but how each call ends.)
#[derive(Clone, Copy)]
enum Turn {
    On(IStream, usize, usize),
    Stop(Stop),
}

// How many elements of an array are due, the one under way included: 0 where none is. (An Option would be made here only for `owe` to take
// apart.)
#[tactic(auto, unfolding(copying::specs::Owed::due_in))]
fn due(reader: IStream) -> u32
    ensures { result ≡ due_in (state_of reader) }
{
    match reader.phase {
        Phase::Unsigned(_, left, _) | Phase::Signed(_, left, _) | Phase::Float(_, _, left, _, _) =>
            left,
        _ => 0,
    }
}

// An event that was read with so many bytes goes out, or as much of it as there is room for. None has more than OUTPUT_MAX.
fn written(depth: u8, owed: Owed, read: usize, reader: IStream, pos: usize, buf: &mut [u8]) -> Turn
    ensures { (result ≡ event_turn depth owed read reader pos buf.old) × (buf.new ≡ event_buf owed pos buf.old) }
{
    let output = owed.output();
    let room = buf.len().saturating_sub(pos);
    if OUTPUT_MAX <= room {
        let at = output.put_fitting(buf, pos);
        return Turn::On(reader, read, at);
    }
    let len = output.len();
    let end = output.put(buf, pos, 0);
    if room < len {
        return Turn::Stop(Stop {
            used: read,
            answer: Ok(Answer::Full),
            reader,
            depth: depth as u16,
            pos: end,
            owed,
            place: (end - pos) as u8,
        });
    }
    Turn::On(reader, read, end)
}

// The call stops with nothing owed.
fn stopped(
    depth: u8,
    used: usize,
    answer: Result<Answer, Error>,
    reader: IStream,
    pos: usize,
) -> Turn
    ensures { result ≡ Turn.Stop (pause depth used answer reader pos) }
{
    Turn::Stop(Stop {
        used,
        answer,
        reader,
        depth: depth as u16,
        pos,
        owed: Owed::Nothing,
        place: 0,
    })
}

// What a call of the reader, at a depth, with so many elements due, comes to.
fn heard(depth: u8, left: u32, fed: Fed, pos: usize, buf: &mut [u8]) -> Turn
    ensures { (result ≡ heard_turn depth left fed pos buf.old) × (buf.new ≡ heard_buf left fed pos buf.old) }
{
    let read = fed.read;
    let reader = fed.stream;
    match fed.answer {
        Ok(istream::Answer::Event(e)) => written(depth, owe(left, e), read, reader, pos, buf),
        Ok(istream::Answer::Status(s)) => stopped(depth, read, Ok(Answer::Status(s)), reader, pos),
        Err(e) => stopped(depth, read, Err(e), reader, pos),
    }
}

// What a payload that goes on after so many bytes of the chunk stops at: the buffer's end, or the chunk's.
fn cut(n: usize, len: usize) -> Answer
    ensures { result ≡ cut_off n len }
{
    if n < len {
        return Answer::Full;
    }
    Answer::Status(Status::Incomplete)
}

// A payload's bytes go out at once, as many as there is room for; the next phase is made here (docs/PERFORMANCE.md). Its numbers come as
// the match in `one_turn` binds them: taken from the reader here, they would need that match again, with an arm that never is.
fn piece(
    reader: IStream,
    id: u32,
    r: RawType,
    total: u32,
    offset: u32,
    pos: usize,
    rest: &[u8],
    buf: &mut [u8],
) -> Turn
    requires { InPayload reader id r total offset }
    ensures { Turned reader pos rest.now buf.old result buf.new }
{
    let len = rest.len();
    let n = len
        .min(buf.len().saturating_sub(pos))
        .min((total - offset) as usize);
    let end = put_rest(buf, pos, &rest[..n], 0);
    let carried = reader.carried;
    let at = offset + n as u32;
    if at < total {
        let next = IStream {
            phase: Phase::Payload(id, r, total, at),
            carried,
        };
        return stopped(carried.depth, n, Ok(cut(n, len)), next, end);
    }
    let phase = idle();
    Turn::On(IStream { phase, carried }, n, end)
}

// One turn: a payload's bytes, what stands in its shortest form already, or an event. (Reader and position go each on its own: in one
// struct, handed on, small integers with long headers took 1.06 to 1.09 times as long. Nor does a struct hold what `GoesOn` says as ghost
// fields: it would be made anew after each turn, and `written` and `heard`, which make turns, know of no reader that it goes on.)
fn one_turn(reader: IStream, pos: usize, rest: &[u8], buf: &mut [u8]) -> Turn
    requires { GoesOn reader }
    ensures { Turned reader pos rest.now buf.old result buf.new }
{
    if let Phase::Payload(id, r, total, offset) = reader.phase {
        return piece(reader, id, r, total, offset, pos, rest, buf);
    }
    let m = rest.len().min(buf.len().saturating_sub(pos));
    if let Some(block) = as_is(reader, &rest[..m]) {
        let end = put_rest(buf, pos, &rest[..block.len], 0);
        return Turn::On(block.reader, block.len, end);
    }
    heard(
        reader.carried.depth,
        due(reader),
        reader.feed(rest),
        pos,
        buf,
    )
}

impl Stop {
    // A stop, so many bytes of the chunk later.
    fn later(self, used: usize) -> Stop
        requires { used + self.used < 18446744073709551616 }
        ensures { result ≡ later used self }
    {
        Stop {
            used: used + self.used,
            ..self
        }
    }
}

// Turns one after another, nothing being owed at first, until one is a stop: no `for`, since only the turns know how many they are.
pub fn run(reader: IStream, start: usize, chunk: &[u8], buf: &mut [u8]) -> Stop
    requires { GoesOn reader }
    ensures { Ran reader start chunk.now buf.old result buf.new }
{
    let mut at = reader;
    let mut pos = start;
    let mut rest = chunk;
    loop {
        match one_turn(at, pos, rest, buf) {
            Turn::On(next, n, end) => {
                at = next;
                pos = end;
                rest = &rest[n..];
            }
            Turn::Stop(s) => {
                return s.later(chunk.len() - rest.len());
            }
        }
    }
}
