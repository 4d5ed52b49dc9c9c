// What a call of the writer refuses, by numbers alone, and in which order. (Whether the state is sound is told: that test is of all the
// state's numbers, and these would only hand them on to it.)
#![tactic(auto)]

ghost use Rattle.std.specs.Prelude.{◌≡◌};
ghost use Rattle.refusals.specs.Judged.{judged};
ghost use Rattle.refusals.specs.Tests.{bad_buffer, unsound_writer, id_too_large, too_long};
ghost use Rattle.refusals.specs.Orders.{change_tests, scalar_tests, sized_tests, fixlen_tests, begin_tests, end_tests};
ghost use Rattle.checks.specs.Check.{check_of, alone};

use types::{Error, FIXLEN_MAX, FixlenType, ID_MAX, MAX_DEPTH};

// The test of a state, an id, a length against the limit of its kind: each alone. (One function of a test and an error would have both
// named at each of its calls.)
fn sound_state(sound: bool) -> Result<(), Error>
    ensures { result ≡ alone (unsound_writer sound) }
{
    if sound {
        Ok(())
    } else {
        Err(Error::UnsoundWriter)
    }
}

fn legal_id(id: u32) -> Result<(), Error>
    ensures { result ≡ alone (id_too_large id) }
{
    if ID_MAX < id {
        Err(Error::IdTooLarge)
    } else {
        Ok(())
    }
}

fn short_enough(len: usize, most: u32) -> Result<(), Error>
    ensures { result ≡ alone (too_long most len) }
{
    if (most as usize) < len {
        Err(Error::TooLong)
    } else {
        Ok(())
    }
}

// Whether a buffer of this size cannot be written from the offset on; one that is to be drained needs a byte. (`drained`, here and below,
// is the flag of 01's calls, which C hands on as it is.)
pub fn unfit(size: usize, offset: usize, drained: bool) -> bool
    ensures { result ≡ (bad_buffer size offset drained).fails }
{
    if drained {
        size <= offset
    } else {
        size < offset
    }
}

// The refusals of a buffer change: the new buffer, then the state.
pub fn check_change(sound: bool, size: usize, offset: usize, drained: bool) -> Result<(), Error>
    ensures { result ≡ check_of (judged (change_tests sound size offset drained)) }
{
    if unfit(size, offset, drained) {
        return Err(Error::BadBuffer);
    }
    sound_state(sound)
}

// The refusals of a field: the state, the id.
pub fn check_field(sound: bool, id: u32) -> Result<(), Error>
    ensures { result ≡ check_of (judged (scalar_tests sound id)) }
{
    sound_state(sound)?;
    legal_id(id)
}

// And those of one with a payload or an array: how long it is, against the limit of its kind.
pub fn check_sized(sound: bool, id: u32, len: usize, most: u32) -> Result<(), Error>
    ensures { result ≡ check_of (judged (sized_tests sound id most len)) }
{
    sound_state(sound)?;
    legal_id(id)?;
    short_enough(len, most)
}

// The refusals of a fixed-length field of any subtype: a string's, too, behind the state.
pub fn check_fixlen(sound: bool, t: FixlenType, id: u32, len: usize) -> Result<(), Error>
    ensures { result ≡ check_of (judged (fixlen_tests sound t id len)) }
{
    sound_state(sound)?;
    if matches!(t, FixlenType::Str) {
        return Err(Error::StringSubtype);
    }
    legal_id(id)?;
    short_enough(len, FIXLEN_MAX)
}

// The refusals of an open: the state, the depth, the id.
pub fn check_begin(sound: bool, depth: u16, id: u32) -> Result<(), Error>
    ensures { result ≡ check_of (judged (begin_tests sound depth id)) }
{
    sound_state(sound)?;
    if MAX_DEPTH <= u32::from(depth) {
        return Err(Error::Nesting);
    }
    legal_id(id)
}

// The refusals of a close: the state, the depth.
pub fn check_end(sound: bool, depth: u16) -> Result<(), Error>
    ensures { result ≡ check_of (judged (end_tests sound depth)) }
{
    sound_state(sound)?;
    if depth == 0 {
        return Err(Error::Nesting);
    }
    Ok(())
}
