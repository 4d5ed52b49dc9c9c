// A call from any state, by its phase and what is carried along: what it refuses, and else a payload's bytes in one piece, an empty
// payload's piece that is due, or bytes one by one.
#![tactic(auto)]

ghost use Rattle.std.specs.Prelude.{◌≡◌, ◌<◌};
ghost use Rattle.layout.specs.Limits.{base};
ghost use Rattle.machine.specs.Machine.{in_payload};
ghost use Rattle.machine.specs.Calls.{reading, call};
ghost use Rattle.types.specs.Types.{raw_sort};
ghost use Rattle.phase.specs.Phases.{state_at};
ghost use Rattle.phase.specs.Sound.{AtBytes};
ghost use Rattle.call_end.specs.CallEnd.{end_in};
ghost use Rattle.read_slowly.specs.Slowly.{end_of};

use call_end::{Answer, CallEnd, Status, ended, stop, unsound};
use event::piece;
use phase::{Carried, Phase, Stepped, idle, sound};
use step::step;
use types::{Error, RawType};

// Reads on byte by byte.
fn scan(from: Phase, with: Carried, chunk: &[u8]) -> CallEnd
    requires { AtBytes base (state_at with.depth from) }
    ensures { result ≡ end_in (call base (state_at with.depth from) chunk.now) }
{
    let mut phase = from;
    let mut carried = with;
    for (n, b) in chunk.iter().enumerate() {
        let s = step(carried, phase, *b);
        let Some(Stepped::On(p, k)) = s else {
            return stop(n + 1, s);
        };
        phase = p;
        carried = k;
    }
    stop(chunk.len(), Some(Stepped::On(phase, carried)))
}

// A payload's bytes in one piece, as many as the chunk has. Its numbers come one by one, as the phase has them; as a
// struct there, a blob in chunks took 1.4 times as long.
pub fn payload(
    carried: Carried,
    id: u32,
    r: RawType,
    total: u32,
    offset: u32,
    chunk: &[u8],
) -> CallEnd
    requires { offset < total }
    ensures { result ≡ end_in (call base (reading carried.depth (in_payload id (raw_sort r) total offset)) chunk.now) }
{
    let len = chunk.len();
    let owed = (total - offset) as usize;
    if len == 0 {
        let here = Phase::Payload(id, r, total, offset);
        return ended(0, Ok(Answer::Status(Status::Incomplete)), here, carried);
    }
    if len < owed {
        let part = Ok(Answer::Event(piece(id, r, total, offset, len)));
        let rest = Phase::Payload(id, r, total, offset + (len as u32));
        return ended(len, part, rest, carried);
    }
    let last = Ok(Answer::Event(piece(id, r, total, offset, owed)));
    ended(owed, last, idle(), carried)
}

// From any state; an unsound and a broken one stay as they are.
pub fn slowly(phase: Phase, carried: Carried, chunk: &[u8]) -> CallEnd
    ensures { result ≡ end_of base phase carried chunk.now }
{
    if !sound(phase) {
        return unsound(phase, carried);
    }
    match phase {
        Phase::Payload(id, r, total, offset) => payload(carried, id, r, total, offset, chunk),
        Phase::Empty(id, r) => ended(0, Ok(Answer::Event(piece(id, r, 0, 0, 0))), idle(), carried),
        Phase::Broken => ended(0, Err(Error::InvalidMsg), phase, carried),
        _ => scan(phase, carried, chunk),
    }
}
