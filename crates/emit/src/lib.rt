// Emission: the bytes of one call's output, segment by segment, straight into the lent buffer as far as there is room.
// A call that goes on from a place skips the bytes that are out already. Every write stops at the buffer's end, so a call may emit
// all its segments with no test between them; how much went follows from the lengths.
// (Here and in the crates above, a position stands beside its buffer: a rest slice would be cut at each call, and where it ends added up
// again by the caller.)
#![tactic(auto)]

ghost use Rattle.std.specs.Prelude.{◌+◌, ◌-◌, ◌≤◌, ◌<◌, length, drop};
ghost use Rattle.layout.specs.Limits.{base, longest};
ghost use Rattle.layout.specs.Varint.{shortest};
ghost use Rattle.layout.specs.Field.{low_bytes};
ghost use Rattle.putting.specs.Put.{Puts};
ghost use Rattle.emit.specs.Cursor.{Emitted};

use varint::varint_len;
use varint_bytes::put_whole;

// Where the output's next byte stands in the buffer, and how many bytes still to come are out already.
#[derive(Clone, Copy)]
pub struct Cursor {
    pub pos: usize,
    pub skip: usize,
}

// The varint of v where there is room for the longest, with no test for the buffer's end at each byte; where it ends. (That there is room
// is asked for, here and wherever a name says `fitting`: not to test for it at each byte is what these are for.)
pub fn put_fitting(buf: &mut [u8], pos: usize, v: u64) -> usize
    requires { pos + longest base ≤ length buf.old }
    ensures { Puts buf.old pos (shortest v) buf.new result }
{
    if v < 128 {
        buf[pos] = v as u8;
        return pos + 1;
    }
    buf[pos] = (v % 128 + 128) as u8;
    let second = v / 128;
    if second < 128 {
        buf[pos + 1] = second as u8;
        return pos + 2;
    }
    buf[pos + 1] = (second % 128 + 128) as u8;
    put_third(buf, pos + 2, second / 128)
}

// Such a varint from its third byte on. (Room: as `put_fitting`. One function for the two bytes that both begin with took 1.1 to 1.16
// times as long on small integers.)
fn put_third(buf: &mut [u8], pos: usize, v: u64) -> usize
    requires { pos + (longest base - 2) ≤ length buf.old }
    ensures { Puts buf.old pos (shortest v) buf.new result }
{
    if v < 128 {
        buf[pos] = v as u8;
        return pos + 1;
    }
    buf[pos] = (v % 128 + 128) as u8;
    let second = v / 128;
    if second < 128 {
        buf[pos + 1] = second as u8;
        return pos + 2;
    }
    buf[pos + 1] = (second % 128 + 128) as u8;
    let third = second / 128;
    if third < 128 {
        buf[pos + 2] = third as u8;
        return pos + 3;
    }
    put_whole(buf, pos + 2, third)
}

// The given bytes from their place `from` on, from pos on; where they end. (Cut at the call, they would be tested there once more, since
// the place may be behind their end.)
pub fn put_rest(buf: &mut [u8], pos: usize, bytes: &[u8], from: usize) -> usize
    ensures { Puts buf.old pos (drop from bytes.now) buf.new result }
{
    if buf.len() <= pos {
        return pos;
    }
    if bytes.len() <= from {
        return pos;
    }
    let n = (bytes.len() - from).min(buf.len() - pos);
    // Byte by byte: `copy_from_slice` took 1.3 times as long on strings of 24 bytes.
    for k in 0..n {
        buf[pos + k] = bytes[from + k];
    }
    pos + n
}

// The same, out of line: in line, where the compiler sees that the bytes are a function's own, the loop becomes a call of `memcpy`, and an
// archive for C is to need nothing from outside.
#[inline(never)]
fn put_own(buf: &mut [u8], pos: usize, bytes: &[u8], from: usize) -> usize
    ensures { Puts buf.old pos (drop from bytes.now) buf.new result }
{
    put_rest(buf, pos, bytes, from)
}

// The n low bytes of x from the place `part` on, low byte first, as far as there is room; where they end.
pub fn put_part(buf: &mut [u8], pos: usize, x: u64, n: usize, part: usize) -> usize
    requires { n ≤ 8 }
    ensures { Puts buf.old pos (drop part (low_bytes n x)) buf.new result }
{
    put_own(buf, pos, &x.to_le_bytes()[..n], part)
}

impl Cursor {
    // The varint of v.
    pub fn put_varint(self, buf: &mut [u8], v: u64) -> Cursor
        ensures { Emitted self buf.old (shortest v) result buf.new }
    {
        let pos = self.pos;
        let skip = self.skip;
        if skip == 0 {
            let end = put_whole(buf, pos, v);
            return Cursor { pos: end, skip: 0 };
        }
        let len = varint_len(v);
        if len <= skip {
            return Cursor {
                pos,
                skip: skip - len,
            };
        }
        let end = put_whole(buf, pos, v >> (skip * 7));
        Cursor { pos: end, skip: 0 }
    }

    // Bytes that go as they are.
    pub fn put_bytes(self, buf: &mut [u8], bytes: &[u8]) -> Cursor
        ensures { Emitted self buf.old bytes.now result buf.new }
    {
        let Cursor { pos, skip } = self;
        Cursor {
            pos: put_own(buf, pos, bytes, skip),
            skip: skip.saturating_sub(bytes.len()),
        }
    }
}
