// The lines of the event list: what an event says, put as text into a lent buffer as far as there is room.
#![tactic(auto)]

ghost use Rattle.std.specs.Prelude.{◌≤◌, ◌<◌, ◌^◌, Some};
ghost use Rattle.std.proofs.Math.Seq.{slice};
ghost use Rattle.layout.specs.Field.{each};
ghost use Rattle.event.specs.Event.{event_of};
ghost use Rattle.event_list.specs.Lines.{decimal, hexadecimal, byte_line, lines_of};
ghost use Rattle.shown.specs.Spelled.{part_text, line_text};
ghost use Rattle.putting.specs.Put.{Puts};

use emit::put_rest;
use event::{Bounds, Event};
use shown::{Line, Part, Shown, shown_of};

fn put_decimal(out: &mut [u8], at: usize, n: u64) -> usize
    ensures { Puts out.old at (decimal n) out.new result }
{
    // Fixed memory, as below: as many digits as such a number has.
    let mut digits = [0u8; 20];
    let k = io::decimal(n, &mut digits);
    put_rest(out, at, &digits[..k], 0)
}

// A number by so many digits, where it has no more.
fn put_hexadecimal(out: &mut [u8], at: usize, n: u64, digits: usize) -> usize
    requires { (0 < digits) × (digits ≤ 16) × (n < 16 ^ digits) }
    ensures { Puts out.old at (hexadecimal digits n) out.new result }
{
    let mut text = [0u8; 16];
    let k = io::hex(n, digits, &mut text);
    put_rest(out, at, &text[..k], 0)
}

// (The blank stands in each arm: before the match it would need the sign taken apart first.)
fn put_some(out: &mut [u8], at: usize, p: Part) -> usize
    ensures { Puts out.old at (part_text (Some p)) out.new result }
{
    match p {
        Part::Number(n) => {
            let next = put_rest(out, at, b" ", 0);
            put_decimal(out, next, n)
        }
        Part::Minus(n) => {
            let next = put_rest(out, at, b" -", 0);
            put_decimal(out, next, n)
        }
        Part::Bits32(n) => {
            let next = put_rest(out, at, b" ", 0);
            put_hexadecimal(out, next, n as u64, 8)
        }
        Part::Bits64(n) => {
            let next = put_rest(out, at, b" ", 0);
            put_hexadecimal(out, next, n, 16)
        }
    }
}

// A part, where the line has it.
fn put_part(out: &mut [u8], at: usize, p: Option<Part>) -> usize
    ensures { Puts out.old at (part_text p) out.new result }
{
    match p {
        None => at,
        Some(part) => put_some(out, at, part),
    }
}

fn put_line(out: &mut [u8], at: usize, l: Line) -> usize
    ensures { Puts out.old at (line_text l) out.new result }
{
    let Line {
        letter,
        first,
        second,
        third,
    } = l;
    let start = [letter];
    let a = put_rest(out, at, &start, 0);
    let b = put_part(out, a, first);
    let c = put_part(out, b, second);
    let d = put_part(out, c, third);
    put_rest(out, d, b"\n", 0)
}

// The line of a payload byte.
fn put_byte(out: &mut [u8], at: usize, b: u8) -> usize
    ensures { Puts out.old at (byte_line b) out.new result }
{
    let next = put_rest(out, at, b"Y ", 0);
    let end = put_decimal(out, next, b as u64);
    put_rest(out, end, b"\n", 0)
}

// A line for each byte.
fn put_bytes(out: &mut [u8], at: usize, bytes: &[u8]) -> usize
    ensures { Puts out.old at (each byte_line bytes.now) out.new result }
{
    let mut next = at;
    for &b in bytes {
        next = put_byte(out, next, b);
    }
    next
}

// The lines of a piece: of as many of its bytes as the chunk has.
fn put_piece(out: &mut [u8], at: usize, chunk: &[u8], b: Bounds) -> usize
    ensures { Puts out.old at (each byte_line (slice b.from b.to chunk.now)) out.new result }
{
    let to = b.to.min(chunk.len());
    let from = b.from.min(to);
    put_bytes(out, at, &chunk[from..to])
}

// The lines of an event of a call that was lent this chunk, from `at` on; where they end.
pub fn put_event(out: &mut [u8], at: usize, chunk: &[u8], e: Event) -> usize
    ensures { Puts out.old at (lines_of (event_of chunk.now e)) out.new result }
{
    let s = shown_of(e);
    match s {
        Shown::Line(l) => put_line(out, at, l),
        Shown::Piece(b) => put_piece(out, at, chunk, b),
    }
}
