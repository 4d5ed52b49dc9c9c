// What is shown of an event: its line taken apart, or the bounds of its piece, whose bytes have a line each.
#![tactic(auto)]

ghost use Rattle.std.specs.Prelude.{◌≡◌, ◌∷◌, Some};
ghost use Rattle.event_list.specs.Lines.{signed};
ghost use Rattle.shown.specs.Spelled.{part_text, lined, closed, Shows};

use event::{Bounds, Event, fp32_bits, fp64_bits};

// A part of a line after its letter. `Minus` is a number below 0, by its size.
#[derive(Clone, Copy)]
pub enum Part {
    Number(u64),
    Minus(u64),
    Bits32(u32),
    Bits64(u64),
}

#[derive(Clone, Copy)]
pub struct Line {
    pub letter: u8,
    pub first: Option<Part>,
    pub second: Option<Part>,
    pub third: Option<Part>,
}

// An event has one line; a piece has one for each of its bytes.
#[derive(Clone, Copy)]
pub enum Shown {
    Line(Line),
    Piece(Bounds),
}

// A letter, an id and up to two parts more.
fn with_id(letter: u8, id: u32, second: Option<Part>, third: Option<Part>) -> Shown
    ensures { result ≡ lined letter id second third }
{
    Shown::Line(Line {
        letter,
        first: Some(Part::Number(id as u64)),
        second,
        third,
    })
}

fn signed_part(v: i64) -> Part
    ensures { part_text (Some result) ≡ 32 ∷ signed v }
{
    let size = v.unsigned_abs();
    if v < 0 {
        Part::Minus(size)
    } else {
        Part::Number(size)
    }
}

fn close() -> Shown
    ensures { result ≡ closed }
{
    Shown::Line(Line {
        letter: b'E',
        first: None,
        second: None,
        third: None,
    })
}

// What is shown of an event.
pub fn shown_of(e: Event) -> Shown
    ensures { Shows result e }
{
    match e {
        Event::Unsigned(id, n) => with_id(b'U', id, Some(Part::Number(n)), None),
        Event::Signed(id, v) => with_id(b'S', id, Some(signed_part(v)), None),
        Event::Fp32(id, x) => with_id(b'F', id, Some(Part::Bits32(fp32_bits(x))), None),
        Event::Fp32Nan(id, n) => with_id(b'F', id, Some(Part::Bits32(n)), None),
        Event::Fp64(id, x) => with_id(b'D', id, Some(Part::Bits64(fp64_bits(x))), None),
        Event::Fp64Nan(id, n) => with_id(b'D', id, Some(Part::Bits64(n)), None),
        Event::Str(_, b) | Event::Blob(_, b) => Shown::Piece(b),
        Event::Fixlen(id, s, total) => with_id(
            b'P',
            id,
            Some(Part::Number(s.raw() as u64)),
            Some(Part::Number(total as u64)),
        ),
        Event::Array(id, k, count) => with_id(
            b'A',
            id,
            Some(Part::Number(k.raw() as u64)),
            Some(Part::Number(count as u64)),
        ),
        Event::Begin(id) => with_id(b'B', id, None, None),
        Event::End => close(),
    }
}
