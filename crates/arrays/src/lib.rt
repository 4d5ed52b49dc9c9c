// Arrays, from any place on and behind the headers that are held back.
#![tactic(auto)]

ghost use Rattle.std.specs.Prelude.{◌++◌, map, ◌≤◌, length};
ghost use Rattle.layout.specs.Field.{float_array};
ghost use Rattle.layout.specs.Copy.{field_bytes};
ghost use Rattle.layout.specs.Limits.{base};
ghost use Rattle.held.specs.Headers.{headers_of, Ended};

use elements::{Integer, counted, put_varints, varints_out};
use emit::Cursor;
use floats::{Float, put_floats};
use held::{Held, tagged};
use outcomes::{Reach, finish};
use types::{ARRAY_MAX, Error, T_FIXLENARRAY};
use varint::VARINT_MAX;

// Most bytes of an array's elements.
const ELEMENTS_MAX: usize = VARINT_MAX * (ARRAY_MAX as usize);

// An array of integers. Where it ends before the buffer does, its elements need no second look; nor do those beyond the buffer's end.
// (How many items, here and below, the callers have tested, in the refusals' order: the answer counts bytes, which must fit it whatever a
// T takes.)
pub fn put_integer_array<T: Integer>(
    start: Cursor,
    buf: &mut [u8],
    held: Held,
    id: u32,
    items: &[T],
) -> Result<Reach, Error>
    requires { length items.now ≤ base.count }
    ensures { Ended start.pos buf.old (headers_of held.count held.places ++ field_bytes (T.array id items.now)) start.skip result buf.new }
{
    let size = buf.len();
    let Cursor { pos, skip: place } = start;
    let header = tagged(id, T::WIRE);
    let count = items.len() as u64;
    let behind = held.put_head(start, buf, header, count);
    let end = put_varints(behind, buf, items);
    if end.skip == 0 && end.pos < size {
        return Ok(Reach::Through(end.pos));
    }
    let most = place
        .saturating_add(size.saturating_sub(pos))
        .min(ELEMENTS_MAX);
    let len = counted(varints_out(items, most), items.len(), most);
    finish(pos, size, held.head_len(header, count) + len, place)
}

// An array of floats. Its word, which takes one byte, stands even where the array is empty.
pub fn put_float_array<T: Float>(
    start: Cursor,
    buf: &mut [u8],
    held: Held,
    id: u32,
    items: &[T],
) -> Result<Reach, Error>
    requires { length items.now ≤ base.count }
    ensures { Ended start.pos buf.old (headers_of held.count held.places ++ field_bytes (float_array id T.width (map T.bits items.now))) start.skip result buf.new }
{
    let size = buf.len();
    let header = tagged(id, T_FIXLENARRAY);
    let count = items.len() as u64;
    let head = held.put_head(start, buf, header, count);
    let word = head.put_varint(buf, T::WORD);
    put_floats(word, buf, items);
    let total = held.head_len(header, count) + (1 + items.len() * T::BYTES);
    finish(start.pos, size, total, start.skip)
}
