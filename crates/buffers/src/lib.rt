// A drain and a buffer change by the numbers of a writer's state: how many bytes are to be sent, and where writing goes on.
#![tactic(auto)]

ghost use Rattle.std.specs.Prelude.{◌≡◌};
ghost use Rattle.buffers.specs.Moved.{drained_to, changed_to};

use checks::check_change;
use places::Nest;
use types::Error;

// The old position, below which the bytes to be sent stand, and the new one.
#[derive(Clone, Copy)]
pub struct Moved {
    pub sent: usize,
    pub next: usize,
}

// The bytes below the position are sent, and writing starts at 0.
pub fn drain(pos: usize, nest: Nest, size: usize) -> Result<Moved, Error>
    ensures { result ≡ drained_to pos nest.depth nest.held nest.places size }
{
    if nest.sound_for(pos, size) {
        Ok(Moved { sent: pos, next: 0 })
    } else {
        Err(Error::UnsoundWriter)
    }
}

// The bytes below the position are sent, and writing goes on in another buffer, from the offset on. (`drained` is the flag of 01's call,
// which C hands on as it is.)
pub fn change(
    pos: usize,
    nest: Nest,
    old: usize,
    new: usize,
    offset: usize,
    drained: bool,
) -> Result<Moved, Error>
    ensures { result ≡ changed_to pos nest.depth nest.held nest.places old new offset drained }
{
    check_change(nest.sound_for(pos, old), new, offset, drained)?;
    Ok(Moved {
        sent: pos,
        next: offset,
    })
}
