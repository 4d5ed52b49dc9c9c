// How far a call's output goes, by numbers alone: all of it out, up to the buffer's end, or refused for the place to go on from.
#![tactic(auto)]

ghost use Rattle.std.specs.Prelude.{◌≡◌};
ghost use Rattle.outcomes.specs.Outcome.{reaches};

use types::Error;

// How far a call goes that is not refused: all its bytes are out, up to a position; or the buffer is full, and that many are out.
#[derive(Clone, Copy)]
pub enum Reach {
    Through(usize),
    Full(usize),
}

// What a call comes to whose output has `total` bytes, those from the place on being out as far as there is room. (Beyond the
// buffer's end there is none.)
#[tactic(auto, unfolding(crate::specs::Outcome::reaches))]
pub fn finish(pos: usize, size: usize, total: usize, place: usize) -> Result<Reach, Error>
    ensures { result ≡ reaches pos size total place }
{
    if total < place {
        return Err(Error::PlaceBeyond);
    }
    let owed = total - place;
    let room = size.saturating_sub(pos);
    let out = owed.min(room);
    if owed <= room {
        Ok(Reach::Through(pos + out))
    } else {
        Ok(Reach::Full(place + out))
    }
}
