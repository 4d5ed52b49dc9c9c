// A field or an array from any state and any place on, by the state's numbers: what it refuses, in order, and else its bytes behind the
// headers that are held back. (Start, buffer, nest and id are what the writer's calls have: a struct of them would be made at each call and
// taken apart here.)
#![tactic(auto, using(crate::proofs::Went::refuses, crate::proofs::Went::goes))]

ghost use Rattle.std.specs.Prelude.{◌≡◌, [], ◌∷◌, map, ◌++◌, ◌+◌, ◌*◌, length};
ghost use Rattle.layout.specs.Varint.{shortest};
ghost use Rattle.layout.specs.Field.{float_array};
ghost use Rattle.layout.specs.Copy.{field_bytes, fixlen_bytes};
ghost use Rattle.types.specs.Types.{subtype};
ghost use Rattle.refusals.specs.Tests.{payload_too_long, array_too_long};
ghost use Rattle.write_slowly.specs.Went.{went_by, field_from};

use arrays::{put_float_array, put_integer_array};
use checks::{check_field, check_sized};
use elements::Integer;
use emit::Cursor;
use fields::{put_fixlen_field, put_varint_field};
use floats::Float;
use held::{Held, tagged};
use outcomes::Reach;
use places::Nest;
use types::{ARRAY_MAX, Error, FIXLEN_MAX, FixlenType, T_FIXLEN};

// A field of one varint, its type the wire's number. (An enum in its place would be made a number again for the header, by a match with a
// law: no plainer.)
pub fn varint_field(
    start: Cursor,
    buf: &mut [u8],
    nest: Nest,
    id: u32,
    wire: u8,
    value: u64,
) -> Result<Reach, Error>
    ensures { went_by result buf.new ≡ field_from start.pos nest.depth nest.held nest.places buf.old id [] (shortest (id * 8 + wire) ++ shortest value) start.skip }
{
    check_field(nest.sound_for(start.pos, buf.len()), id)?;
    put_varint_field(start, buf, Held::of(nest), tagged(id, wire), value)
}

// A fixed-length field: the header, the word, and the bytes as they are.
#[tactic(auto, using(crate::proofs::Went::refuses, crate::proofs::Went::goes), unfolding(layout::specs::Copy::fixlen_bytes))]
pub fn fixlen_field(
    start: Cursor,
    buf: &mut [u8],
    nest: Nest,
    id: u32,
    bytes: &[u8],
    t: FixlenType,
) -> Result<Reach, Error>
    ensures { went_by result buf.new ≡ field_from start.pos nest.depth nest.held nest.places buf.old id (payload_too_long (length bytes.now) ∷ []) (fixlen_bytes id (subtype t) bytes.now) start.skip }
{
    let sound = nest.sound_for(start.pos, buf.len());
    check_sized(sound, id, bytes.len(), FIXLEN_MAX)?;
    let word = tagged(bytes.len() as u32, t.raw());
    put_fixlen_field(
        start,
        buf,
        Held::of(nest),
        tagged(id, T_FIXLEN),
        word,
        bytes,
    )
}

// An array of integers. (This and the next differ in the elements' trait, the put and the bytes: one generic would take a closure with a
// contract of four lines for the three of a body.)
pub fn integer_array<T: Integer>(
    start: Cursor,
    buf: &mut [u8],
    nest: Nest,
    id: u32,
    items: &[T],
) -> Result<Reach, Error>
    ensures { went_by result buf.new ≡ field_from start.pos nest.depth nest.held nest.places buf.old id (array_too_long (length items.now) ∷ []) (field_bytes (T.array id items.now)) start.skip }
{
    let sound = nest.sound_for(start.pos, buf.len());
    check_sized(sound, id, items.len(), ARRAY_MAX)?;
    put_integer_array(start, buf, Held::of(nest), id, items)
}

// An array of floats.
pub fn float_array<T: Float>(
    start: Cursor,
    buf: &mut [u8],
    nest: Nest,
    id: u32,
    items: &[T],
) -> Result<Reach, Error>
    ensures { went_by result buf.new ≡ field_from start.pos nest.depth nest.held nest.places buf.old id (array_too_long (length items.now) ∷ []) (field_bytes (float_array id T.width (map T.bits items.now))) start.skip }
{
    let sound = nest.sound_for(start.pos, buf.len());
    check_sized(sound, id, items.len(), ARRAY_MAX)?;
    put_float_array(start, buf, Held::of(nest), id, items)
}
