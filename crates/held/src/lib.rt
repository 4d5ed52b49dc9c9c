// The sequences that a writer holds back: their headers, which go out before content.
#![tactic(auto)]

ghost use Rattle.std.specs.Prelude.{◌≡◌, ◌+◌, ◌-◌, ◌*◌, ◌≤◌, leb, length};
ghost use Rattle.emit.specs.Cursor.{Emitted};
ghost use Rattle.places.specs.Places.{lazy_depth};
ghost use Rattle.at_ease.specs.AtOnce.{pair_most};
ghost use Rattle.held.specs.Headers.{held_most, head_most, headers_of, head_of};

use at_ease::has_room;
use emit::Cursor;
use places::Nest;
use types::{LAZY_SEQ_DEPTH, T_SEQUENCE_START};
use varint::varint_len;

// A header's number, and a fixed-length word's. (The tag is the wire's number of a type or a subtype: with an enum for each there would be
// two of these.)
pub fn tagged(n: u32, tag: u8) -> u64
    ensures { result ≡ n * 8 + tag }
{
    u64::from(n) * 8 + u64::from(tag)
}

// The ids that are held back, outermost first, of a state that was tested: there are eight places. (An array and a count: the writer's
// memory is fixed, and it has no heap.)
#[derive(Clone, Copy)]
pub struct Held {
    pub places: [u32; LAZY_SEQ_DEPTH],
    pub count: u16,
    ghost few: { count ≤ lazy_depth },
}

impl Held {
    // Those of a state that was tested. (What makes the ghost field asks for it.)
    pub fn of(nest: Nest) -> Held
        requires { nest.held ≤ lazy_depth }
        ensures { (result.places ≡ nest.places) × (result.count ≡ nest.held) }
    {
        let Nest { places, held, .. } = nest;
        Held {
            places,
            count: held,
        }
    }

    // How many bytes their headers take.
    pub fn len(self) -> usize
        ensures { (result ≡ length (headers_of self.count self.places)) × (result ≤ held_most) }
    {
        let mut len: usize = 0;
        for &id in &self.places[..self.count as usize] {
            len += varint_len(tagged(id, T_SEQUENCE_START));
        }
        len
    }

    // Those headers.
    pub fn put(self, start: Cursor, buf: &mut [u8]) -> Cursor
        ensures { Emitted start buf.old (headers_of self.count self.places) result buf.new }
    {
        let mut cursor = start;
        for &id in &self.places[..self.count as usize] {
            cursor = cursor.put_varint(buf, tagged(id, T_SEQUENCE_START));
        }
        cursor
    }

    // Whether there is room for those headers, two varints, however long, and `more` bytes.
    pub fn has_room(self, size: usize, pos: usize, more: usize) -> bool
        ensures { result ≡ leb (length (headers_of self.count self.places) + pair_most + more) (size - pos) }
    {
        has_room(size, pos, self.len().saturating_add(more))
    }

    // How many bytes those headers, a field's header and the varint after it take.
    pub fn head_len(self, header: u64, second: u64) -> usize
        ensures { (result ≡ length (head_of self.count self.places header second)) × (result ≤ head_most) }
    {
        self.len() + varint_len(header) + varint_len(second)
    }

    // Those bytes.
    pub fn put_head(self, start: Cursor, buf: &mut [u8], header: u64, second: u64) -> Cursor
        ensures { Emitted start buf.old (head_of self.count self.places header second) result buf.new }
    {
        let behind = self.put(start, buf);
        let head = behind.put_varint(buf, header);
        head.put_varint(buf, second)
    }
}
