// How many drains the copy of a message given whole costs over a buffer of so many bytes, next to how long that copy is.
#![tactic(auto)]

ghost use Rattle.std.specs.Prelude.{◌≡◌};
ghost use Rattle.drain_count.specs.DrainCount.{drains_of};
ghost use Rattle.drain_count.specs.declared.Uncounted.TheVariants.{Stopped};

use copy_len::length_of;
use drains::rounded_up;
use passing::Stop;
use types::Error;

// How many drains, and the length of the copy.
#[derive(Clone, Copy)]
pub struct Drains {
    pub count: usize,
    pub len: usize,
}

// Why there is no number of drains: the message is incomplete, or broken; or a buffer of no bytes is refused. It is the error of a Result;
// `Refused` holds `NoBuffer` alone, as the other refusals hold theirs.
#[derive(Clone, Copy)]
pub enum Uncounted {
    Stopped(Stop),
    Refused(Error),
}

impl From<Stop> for Uncounted {
    ghost from_gives = { λ s e. e ≡ Stopped s };

    fn from(s: Stop) -> Uncounted {
        Uncounted::Stopped(s)
    }
}

// The copy is written from the buffer's first byte on, and drained when "full" is answered and once at the end where bytes are left.
pub fn drains_of(message: &[u8], buffer: usize) -> Result<Drains, Uncounted>
    ensures { result ≡ drains_of message.now buffer }
{
    if buffer == 0 {
        return Err(Uncounted::Refused(Error::NoBuffer));
    }
    let len = length_of(message)?;
    let count = rounded_up(len, buffer);
    Ok(Drains { count, len })
}
