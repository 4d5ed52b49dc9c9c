// Fields written at once, where `at_ease` has nothing against it. (The eight places are in fixed memory; they stand beside the position
// since `fields` has none behind the held headers. A struct of position, places and header would be made and taken apart at each call.)
#![tactic(auto)]

ghost use Rattle.std.specs.Prelude.{◌≡◌, [], ◌∷◌, ◌++◌, ◌+◌, ◌*◌, ◌≤◌, ◌&&◌, ltb, length};
ghost use Rattle.layout.specs.Varint.{shortest};
ghost use Rattle.layout.specs.Limits.{base};
ghost use Rattle.layout.specs.Copy.{field_bytes, fixlen_bytes};
ghost use Rattle.types.specs.Types.{subtype};
ghost use Rattle.putting.specs.Put.{Puts};
ghost use Rattle.elements.specs.OutAfter.{elements_most, row_of};
ghost use Rattle.places.specs.Places.{clean};
ghost use Rattle.at_ease.specs.AtOnce.{pair_most, roomy_at, easy_at, easy_with, closes_at, PutsIf, PutsWhole, PutsEasily};

use at_ease::{at_ease, at_ease_with, closes_at_ease, has_room, put_end};
use elements::{Integer, put_fittings};
use emit::put_fitting;
use held::tagged;
use places::{Nest, unused_zero};
use types::{ARRAY_MAX, FIXLEN_MAX, FixlenType, LAZY_SEQ_DEPTH, T_FIXLEN};
use varint::VARINT_MAX;

// Whether no place is in use, and there is room for two varints, however long, and `more` bytes.
fn is_roomy(size: usize, pos: usize, places: [u32; LAZY_SEQ_DEPTH], more: usize) -> bool
    ensures { result ≡ roomy_at size pos places more }
{
    has_room(size, pos, more) && unused_zero(places, 0)
}

// Two varints, where there is room for the longest; where they end. Two bytes go with no call: with all of it out of line small integers
// took 1.5 times as long. (Room, here and in the next: as `emit::put_fitting`.)
#[inline(always)]
fn put_two(buf: &mut [u8], pos: usize, header: u64, second: u64) -> usize
    requires { pos + pair_most ≤ length buf.old }
    ensures { Puts buf.old pos (shortest header ++ shortest second) buf.new result }
{
    if header < 128 && second < 128 {
        buf[pos] = header as u8;
        let mid = pos + 1;
        buf[mid] = second as u8;
        return mid + 1;
    }
    put_longer(buf, pos, header, second)
}

// Two varints of any length, likewise. (Out of line.)
fn put_longer(buf: &mut [u8], pos: usize, header: u64, second: u64) -> usize
    requires { pos + pair_most ≤ length buf.old }
    ensures { Puts buf.old pos (shortest header ++ shortest second) buf.new result }
{
    let mid = put_fitting(buf, pos, header);
    put_fitting(buf, mid, second)
}

// Two varints at once, where no place is in use and there is room for the longest; where they end. Else nothing is written.
#[inline(always)]
pub fn put_pair(
    buf: &mut [u8],
    pos: usize,
    places: [u32; LAZY_SEQ_DEPTH],
    header: u64,
    second: u64,
) -> Option<usize>
    ensures { PutsIf (roomy_at (length buf.old) pos places 0) buf.old pos (shortest header ++ shortest second) buf.new result }
{
    if !is_roomy(buf.len(), pos, places, 0) {
        return None;
    }
    Some(put_two(buf, pos, header, second))
}

// Bytes for which there is room; where they end. (Room: as `emit::put_fitting`. `emit::put_rest` would test for it again, and where the
// compiler sees that the bytes are a float's own, a loop of a length that it doesn't know becomes a call of `memcpy`: see `emit::put_own`.)
#[inline(always)]
fn put_all(buf: &mut [u8], pos: usize, bytes: &[u8]) -> usize
    requires { pos + length bytes.now ≤ length buf.old }
    ensures { Puts buf.old pos bytes.now buf.new result }
{
    for k in 0..bytes.len() {
        buf[pos + k] = bytes[k];
    }
    pos + bytes.len()
}

// Two varints and bytes after them, likewise. (`put_longer` in the place of the two varints here and there would be one line for two, and a
// call more.)
pub fn put_field(
    buf: &mut [u8],
    pos: usize,
    places: [u32; LAZY_SEQ_DEPTH],
    header: u64,
    second: u64,
    bytes: &[u8],
) -> Option<usize>
    ensures { PutsIf (roomy_at (length buf.old) pos places (length bytes.now)) buf.old pos (shortest header ++ (shortest second ++ bytes.now)) buf.new result }
{
    if !is_roomy(buf.len(), pos, places, bytes.len()) {
        return None;
    }
    let mid = put_fitting(buf, pos, header);
    let end = put_fitting(buf, mid, second);
    Some(put_all(buf, end, bytes))
}

// An array of integers, likewise: header, count, elements. (How many, the test before it has told: ten bytes each then fit a usize.)
pub fn put_integers<T: Integer>(
    buf: &mut [u8],
    pos: usize,
    places: [u32; LAZY_SEQ_DEPTH],
    header: u64,
    items: &[T],
) -> Option<usize>
    requires { length items.now ≤ base.count }
    ensures { PutsWhole (roomy_at (length buf.old) pos places (elements_most (length items.now))) buf.old pos (row_of header (λ x. shortest (T.number x)) items.now) buf.new result }
{
    if !is_roomy(buf.len(), pos, places, VARINT_MAX * items.len()) {
        return None;
    }
    let mid = put_fitting(buf, pos, header);
    let at = put_fitting(buf, mid, items.len() as u64);
    Some(put_fittings(buf, at, items))
}

// ---- the same behind the tests that come before them, as a call of the writer makes them first

// One function for the four would take the test's answer and a closure that holds the buffer, and be no shorter. Position and nest are the
// writer's state by parts: `OStream`, which has both, stands above.

// A field of one varint, its type the wire's number, a term of the header: an enum would be made a number again, by a match with a law.
pub fn pair_at_once(
    buf: &mut [u8],
    pos: usize,
    nest: Nest,
    id: u32,
    wire: u8,
    value: u64,
) -> Option<usize>
    ensures { PutsEasily (easy_at nest.depth nest.held id) buf.old pos nest.places 0 (shortest (id * 8 + wire) ++ shortest value) buf.new result }
{
    if !at_ease(nest, id) {
        return None;
    }
    put_pair(buf, pos, nest.places, tagged(id, wire), value)
}

// A field of fixed length.
pub fn field_at_once(
    buf: &mut [u8],
    pos: usize,
    nest: Nest,
    id: u32,
    t: FixlenType,
    bytes: &[u8],
) -> Option<usize>
    ensures { PutsEasily (easy_with nest.depth nest.held id (length bytes.now) base.size) buf.old pos nest.places (length bytes.now) (fixlen_bytes id (subtype t) bytes.now) buf.new result }
{
    if !at_ease_with(nest, id, bytes.len(), FIXLEN_MAX) {
        return None;
    }
    let word = tagged(bytes.len() as u32, t.raw());
    put_field(buf, pos, nest.places, tagged(id, T_FIXLEN), word, bytes)
}

// An array of integers.
pub fn integers_at_once<T: Integer>(
    buf: &mut [u8],
    pos: usize,
    nest: Nest,
    id: u32,
    items: &[T],
) -> Option<usize>
    ensures { PutsEasily (easy_with nest.depth nest.held id (length items.now) base.count) buf.old pos nest.places (elements_most (length items.now)) (field_bytes (T.array id items.now)) buf.new result }
{
    if !at_ease_with(nest, id, items.len(), ARRAY_MAX) {
        return None;
    }
    put_integers(buf, pos, nest.places, tagged(id, T::WIRE), items)
}

// A close.
pub fn close_at_once(buf: &mut [u8], pos: usize, nest: Nest) -> Option<usize>
    ensures { PutsWhole (closes_at nest.depth nest.held && (ltb pos (length buf.old) && clean nest.places)) buf.old pos (7 ∷ []) buf.new result }
{
    if !closes_at_ease(nest) {
        return None;
    }
    put_end(buf, pos, nest.places)
}
