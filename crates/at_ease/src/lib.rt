// Whether a field can be written at once, no byte of it tested for by itself: nothing is held, and there is room for the longest that it
// can be. And a close, which is one byte, and an open, which is held back.
#![tactic(auto)]

ghost use Rattle.std.specs.Prelude.{◌≡◌, [], ◌∷◌, ◌&&◌, ltb, length};
ghost use Rattle.places.specs.Places.{clean};
ghost use Rattle.at_ease.specs.AtOnce.{room_for, easy_at, easy_with, closes_at, holds_at, PutsIf};

use places::{Nest, unused_zero};
use types::{ID_MAX, LAZY_SEQ_DEPTH, MAX_DEPTH, T_SEQUENCE_END};
use varint::VARINT_MAX;

// Most bytes of two varints: a field's header, and the value, word or count after it.
pub const PAIR_MAX: usize = 2 * VARINT_MAX;

// Whether no id is held, and nothing but the places and the room stands against a field.
#[tactic(auto, unfolding(crate::specs::AtOnce::easy_at))]
pub fn at_ease(nest: Nest, id: u32) -> bool
    ensures { result ≡ easy_at nest.depth nest.held id }
{
    let Nest { depth, held, .. } = nest;
    id <= ID_MAX && held == 0 && depth <= MAX_DEPTH as u16
}

// And against one with a payload or an array of `len`, of which `most` is the limit.
pub fn at_ease_with(nest: Nest, id: u32, len: usize, most: u32) -> bool
    ensures { result ≡ easy_with nest.depth nest.held id len most }
{
    at_ease(nest, id) && len <= most as usize
}

// Whether no id is held, a sequence is open, and nothing but the places and the room stands against a close.
#[tactic(auto, unfolding(crate::specs::AtOnce::closes_at))]
pub fn closes_at_ease(nest: Nest) -> bool
    ensures { result ≡ closes_at nest.depth nest.held }
{
    0 < nest.depth && at_ease(nest, 0)
}

// Whether a sequence can be opened and held back, from a state with these numbers.
#[tactic(auto, unfolding(crate::specs::AtOnce::holds_at))]
pub fn can_hold(offset: usize, nest: Nest, size: usize, id: u32) -> bool
    ensures { result ≡ holds_at offset nest.depth nest.held nest.places size id }
{
    let Nest { depth, held, .. } = nest;
    held < LAZY_SEQ_DEPTH as u16
        && depth < MAX_DEPTH as u16
        && id <= ID_MAX
        && nest.sound_for(offset, size)
}

// Whether there is room from pos on for two varints, however long, and `more` bytes.
#[tactic(auto, unfolding(crate::specs::AtOnce::room_for))]
pub fn has_room(size: usize, pos: usize, more: usize) -> bool
    ensures { result ≡ room_for size pos more }
{
    PAIR_MAX <= size && pos <= size - PAIR_MAX && more <= size - PAIR_MAX - pos
}

// The one byte of a close, where it can be written and no place is in use (there are eight, in fixed memory); where it ends.
pub fn put_end(buf: &mut [u8], pos: usize, places: [u32; LAZY_SEQ_DEPTH]) -> Option<usize>
    ensures { PutsIf (ltb pos (length buf.old) && clean places) buf.old pos (7 ∷ []) buf.new result }
{
    if buf.len() <= pos {
        return None;
    }
    if !unused_zero(places, 0) {
        return None;
    }
    buf[pos] = T_SEQUENCE_END;
    Some(pos + 1)
}
