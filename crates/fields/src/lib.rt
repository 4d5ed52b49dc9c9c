// A field of one varint or of fixed length, and the markers of a sequence, from any place on and behind the headers that are held back.
#![tactic(auto)]

ghost use Rattle.std.specs.Prelude.{◌++◌};
ghost use Rattle.layout.specs.Varint.{shortest};
ghost use Rattle.layout.specs.Field.{end};
ghost use Rattle.layout.specs.Copy.{field_bytes};
ghost use Rattle.held.specs.Headers.{headers_of, head_of, Ended};

use emit::Cursor;
use held::{Held, tagged};
use outcomes::{Reach, finish};
use types::{Error, LAZY_SEQ_DEPTH, T_SEQUENCE_END};
use varint::varint_len;
use write_at_once::{put_field, put_pair};

// The held headers, a header and one varint: where there is room for the longest that they can be, at once. (No call of the next with no
// bytes: the fast way here is `put_pair`, there `put_field`, and one function would take it as a closure that holds the buffer. A struct
// of what all of these take, the start, the buffer and what is held, would be made at each call and taken apart here.)
pub fn put_varint_field(
    start: Cursor,
    buf: &mut [u8],
    held: Held,
    header: u64,
    value: u64,
) -> Result<Reach, Error>
    ensures { Ended start.pos buf.old (head_of held.count held.places header value) start.skip result buf.new }
{
    let size = buf.len();
    let Cursor { pos, skip: place } = start;
    if place == 0 && held.has_room(size, pos, 0) {
        let behind = held.put(start, buf);
        let end = put_pair(buf, behind.pos, [0; LAZY_SEQ_DEPTH], header, value).unwrap();
        return Ok(Reach::Through(end));
    }
    held.put_head(start, buf, header, value);
    finish(pos, size, held.head_len(header, value), place)
}

// The held headers, a header, a word and bytes, likewise.
pub fn put_fixlen_field(
    start: Cursor,
    buf: &mut [u8],
    held: Held,
    header: u64,
    word: u64,
    bytes: &[u8],
) -> Result<Reach, Error>
    ensures { Ended start.pos buf.old (headers_of held.count held.places ++ (shortest header ++ (shortest word ++ bytes.now))) start.skip result buf.new }
{
    let size = buf.len();
    let Cursor { pos, skip: place } = start;
    if place == 0 && held.has_room(size, pos, bytes.len()) {
        let behind = held.put(start, buf);
        let end = put_field(buf, behind.pos, [0; LAZY_SEQ_DEPTH], header, word, bytes).unwrap();
        return Ok(Reach::Through(end));
    }
    let head = held.put_head(start, buf, header, word);
    head.put_bytes(buf, bytes);
    let total = held.head_len(header, word) + bytes.len();
    finish(pos, size, total, place)
}

// The held headers and one more.
pub fn put_marker(start: Cursor, buf: &mut [u8], held: Held, header: u64) -> Result<Reach, Error>
    ensures { Ended start.pos buf.old (headers_of held.count held.places ++ shortest header) start.skip result buf.new }
{
    let size = buf.len();
    let behind = held.put(start, buf);
    behind.put_varint(buf, header);
    let total = held.len() + varint_len(header);
    finish(start.pos, size, total, start.skip)
}

// The held headers and a close, whose id is 0.
pub fn put_close(start: Cursor, buf: &mut [u8], held: Held) -> Result<Reach, Error>
    ensures { Ended start.pos buf.old (headers_of held.count held.places ++ field_bytes (end 0)) start.skip result buf.new }
{
    put_marker(start, buf, held, tagged(0, T_SEQUENCE_END))
}
