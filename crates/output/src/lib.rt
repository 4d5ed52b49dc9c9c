// The bytes that an event is written as, by the numbers of their varints or floats: how many they are, and into a buffer.
#![tactic(auto)]

ghost use Rattle.std.specs.Prelude.{◌≡◌, ◌+◌, ◌≤◌, length, drop};
ghost use Rattle.putting.specs.Put.{put, reached, Puts};
ghost use Rattle.output.specs.Output.{output_bytes, output_most};

use emit::{Cursor, put_fitting, put_part};
use varint::{VARINT_MAX, varint_len};

// The bytes that an event is written as: varints one after another, or a float's four or eight low bytes. (`Empty` is an output like the
// others, of no byte, not a missing one: an Option would be asked for at each use.)
#[derive(Clone, Copy)]
pub enum Output {
    Empty,
    One(u64),
    Two(u64, u64),
    Three(u64, u64, u64),
    Four(u32),
    Eight(u64),
}

// Most bytes that an event is written as: three varints.
pub const OUTPUT_MAX: usize = 3 * VARINT_MAX;

impl Output {
    // How many bytes it has.
    pub fn len(self) -> usize
        ensures { (result ≡ length (output_bytes self)) × (result ≤ output_most) }
    {
        match self {
            Output::Empty => 0,
            Output::One(a) => varint_len(a),
            Output::Two(a, b) => varint_len(a) + varint_len(b),
            Output::Three(a, b, c) => varint_len(a) + varint_len(b) + varint_len(c),
            Output::Four(_) => 4,
            Output::Eight(_) => 8,
        }
    }

    // Its bytes from pos on, where there is room for the longest, with no test for the buffer's end; where they end. (Room, here and in the
    // next: as `emit::put_fitting`.)
    pub fn put_fitting(self, buf: &mut [u8], pos: usize) -> usize
        requires { pos + output_most ≤ length buf.old }
        ensures { (result ≡ reached buf.old pos (output_bytes self)) × (buf.new ≡ put buf.old pos (output_bytes self)) × (length (output_bytes self) ≤ output_most) }
    {
        match self {
            Output::Empty => pos,
            Output::One(a) => put_fitting(buf, pos, a),
            Output::Two(a, b) => {
                let mid = put_fitting(buf, pos, a);
                put_fitting(buf, mid, b)
            }
            _ => self.put_bounded(buf, pos),
        }
    }

    // The rarer outputs. The length is taken for its promise alone: none is longer than OUTPUT_MAX.
    fn put_bounded(self, buf: &mut [u8], pos: usize) -> usize
        requires { pos + output_most ≤ length buf.old }
        ensures { (result ≡ reached buf.old pos (output_bytes self)) × (buf.new ≡ put buf.old pos (output_bytes self)) × (length (output_bytes self) ≤ output_most) }
    {
        self.len();
        self.put(buf, pos, 0)
    }

    // Its bytes from the place on, as far as there is room from pos on; where they end. (By two numbers: the copier would make a `Cursor`
    // of them for this call, and read where it stands.)
    pub fn put(self, buf: &mut [u8], pos: usize, place: usize) -> usize
        ensures { Puts buf.old pos (drop place (output_bytes self)) buf.new result }
    {
        let cursor = Cursor { pos, skip: place };
        match self {
            Output::Empty => pos,
            Output::One(a) => cursor.put_varint(buf, a).pos,
            Output::Two(a, b) => cursor.put_varint(buf, a).put_varint(buf, b).pos,
            Output::Three(a, b, c) => {
                let next = cursor.put_varint(buf, a).put_varint(buf, b);
                next.put_varint(buf, c).pos
            }
            Output::Four(bits) => put_part(buf, pos, u64::from(bits), 4, place),
            Output::Eight(bits) => put_part(buf, pos, bits, 8, place),
        }
    }
}
