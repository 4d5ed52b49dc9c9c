// The event that a copier has read and not yet written whole: the output that it is written as, and which may be owed.
#![tactic(auto)]

ghost use Rattle.std.specs.Prelude.{◌≡◌, ◌&&◌, leb, ◌+◌, ◌*◌};
ghost use Rattle.layout.specs.Field.{bytes_of, float, subtype_number};
ghost use Rattle.layout.specs.Limits.{base};
ghost use Rattle.copying.specs.Owed.{agrees, owes_nothing};
ghost use Rattle.types.specs.Types.{width};
ghost use Rattle.owed.specs.Owed.{owed_of, array_output, output_of, level_of, legal_of, place_is_in};

use held::tagged;
use output::Output;
use types::{
    ARRAY_MAX, ArrayKind, FIXLEN_MAX, FloatType, ID_MAX, RawType, T_FIXLEN, T_FIXLENARRAY,
    T_SEQUENCE_END, T_SEQUENCE_START, T_VARINT_SIGNED, T_VARINT_UNSIGNED, T_VARINTARRAY_SIGNED,
    T_VARINTARRAY_UNSIGNED,
};
use varint::zigzag_encode;

// An event that is read and not yet written whole. Only events that the layout allows, but for their numbers' limits: `Element` and
// `SignedElement` stand in an array, and go out bare as the floats do; `Float` and `Payload` announce a fixed-length field. A payload's
// piece is never owed: it counts as read only as far as it is out. (`Nothing` is a case beside the others: with an Option each method would
// be a `map_or` that says the same of none, an empty output, equal depths, any place.)
#[derive(Clone, Copy)]
pub enum Owed {
    Nothing,
    Unsigned(u32, u64),
    Signed(u32, i64),
    Element(u64),
    SignedElement(i64),
    Fp32(u32),
    Fp64(u64),
    Float(u32, FloatType),
    Payload(u32, RawType, u32),
    Array(u32, ArrayKind, u32),
    Begin(u32),
    End,
}

// A float's fixed-length word.
fn word(w: FloatType) -> u64
    ensures { result ≡ bytes_of (width w) * 8 + subtype_number (float (width w)) }
{
    tagged(w.bytes() as u32, w.fixlen().raw())
}

// An array's announcement; a float array's has a word. (`kind` is an enum of the layout's, and all its cases are here.)
fn array_output(id: u32, kind: ArrayKind, count: u32) -> Output
    ensures { result ≡ array_output id kind count }
{
    let n = count as u64;
    match kind {
        ArrayKind::Unsigned => Output::Two(tagged(id, T_VARINTARRAY_UNSIGNED), n),
        ArrayKind::Signed => Output::Two(tagged(id, T_VARINTARRAY_SIGNED), n),
        ArrayKind::Fp32 => Output::Three(tagged(id, T_FIXLENARRAY), n, word(FloatType::Fp32)),
        ArrayKind::Fp64 => Output::Three(tagged(id, T_FIXLENARRAY), n, word(FloatType::Fp64)),
    }
}

// Whether an id is as the layout allows, and a length or a count no more than the limit of its kind.
fn within(id: u32, n: u32, most: u32) -> bool
    ensures { result ≡ (leb id base.id && leb n most) }
{
    id <= ID_MAX && n <= most
}

impl Owed {
    // Whether it is the case for nothing owed.
    pub fn is_nothing(self) -> bool
        ensures { result ≡ owes_nothing (owed_of self 0) }
    {
        matches!(self, Owed::Nothing)
    }

    // The bytes that it is written as.
    pub fn output(self) -> Output
        ensures { result ≡ output_of self }
    {
        match self {
            Owed::Nothing => Output::Empty,
            Owed::Unsigned(id, v) => Output::Two(tagged(id, T_VARINT_UNSIGNED), v),
            Owed::Signed(id, v) => Output::Two(tagged(id, T_VARINT_SIGNED), zigzag_encode(v)),
            Owed::Element(v) => Output::One(v),
            Owed::SignedElement(v) => Output::One(zigzag_encode(v)),
            Owed::Fp32(bits) => Output::Four(bits),
            Owed::Fp64(bits) => Output::Eight(bits),
            Owed::Float(id, w) => Output::Two(tagged(id, T_FIXLEN), word(w)),
            Owed::Payload(id, r, total) => {
                Output::Two(tagged(id, T_FIXLEN), tagged(total, r.fixlen().raw()))
            }
            Owed::Array(id, kind, count) => array_output(id, kind, count),
            Owed::Begin(id) => Output::One(tagged(id, T_SEQUENCE_START)),
            Owed::End => Output::One(tagged(0, T_SEQUENCE_END)),
        }
    }

    // Whether the depths are equal once it is written.
    fn level(self, reader: u8, writer: u16) -> bool
        ensures { result ≡ level_of reader writer self }
    {
        let r = reader as u32;
        let w = writer as u32;
        match self {
            Owed::Begin(_) => r == w + 1,
            Owed::End => r + 1 == w,
            _ => r == w,
        }
    }

    // Whether its numbers are as the layout allows.
    fn legal(self) -> bool
        ensures { result ≡ legal_of self }
    {
        match self {
            Owed::Unsigned(id, _) | Owed::Signed(id, _) | Owed::Float(id, _) | Owed::Begin(id) => {
                id <= ID_MAX
            }
            Owed::Payload(id, _, total) => within(id, total, FIXLEN_MAX),
            Owed::Array(id, _, count) => within(id, count, ARRAY_MAX),
            _ => true,
        }
    }

    // Whether the place is below its output's length; where nothing is owed, the place is not in force.
    fn has_place(self, place: u8) -> bool
        ensures { result ≡ place_is_in self place }
    {
        self.is_nothing() || (place as usize) < self.output().len()
    }

    // Whether it can be owed with its output out to the place, by a reader and a writer at these depths.
    #[tactic(auto, using(crate::proofs::Laws::sound_parts))]
    pub fn sound(self, place: u8, reader: u8, writer: u16) -> bool
        ensures { result ≡ agrees base reader writer (owed_of self place) }
    {
        self.level(reader, writer) && self.legal() && self.has_place(place)
    }
}
