// Where a word is whole, that of a fixed-length field or of a float array: the event that is raised there, and the phase after it.
#![tactic(auto)]

ghost use Rattle.std.specs.Prelude.{◌≡◌};
ghost use Rattle.layout.specs.Limits.{base};
ghost use Rattle.layout.specs.Field.{subtype_of, known, float, raw};
ghost use Rattle.machine.specs.Machine.{at_subtype, at_element};
ghost use Rattle.types.specs.Types.{width, raw_sort};
ghost use Rattle.phase.specs.Steps.{stepped};

use event::Event;
use phase::{Carried, Phase, Stepped, floats};
use types::{FIXLEN_MAX, FixlenType, FloatType, RawType};

// A scalar float is announced. (`float_array` has this test too: they share it, and not the event or the phase.)
pub fn scalar(carried: Carried, id: u32, w: FloatType, len: u64) -> Option<Stepped>
    ensures { result ≡ stepped (at_subtype base carried.depth id len (known (float (width w)))) }
{
    if len == (w.bytes() as u64) {
        let announced = Event::Fixlen(id, w.fixlen(), len as u32);
        Some(Stepped::Raised(announced, Phase::Float(id, w, 0, 0, 0), carried))
    } else {
        None
    }
}

// A string or blob is announced.
pub fn announced(carried: Carried, id: u32, r: RawType, len: u64) -> Option<Stepped>
    ensures { result ≡ stepped (at_subtype base carried.depth id len (known (raw (raw_sort r)))) }
{
    if (FIXLEN_MAX as u64) < len {
        return None;
    }
    let total = len as u32;
    let next = if total == 0 {
        Phase::Empty(id, r)
    } else {
        Phase::Payload(id, r, total, 0)
    };
    Some(Stepped::Raised(Event::Fixlen(id, r.fixlen(), total), next, carried))
}

// A fixed-length field's word is whole. The subtype is the wire's number still, which may name none: a FixlenType would leave that refusal
// to each of the callers. (Case by case, here and below, as in `owing`, which says why.)
pub fn fixlen(carried: Carried, id: u32, len: u64, subtype: u8) -> Option<Stepped>
    ensures { result ≡ stepped (at_subtype base carried.depth id len (subtype_of subtype)) }
{
    match FixlenType::try_from(subtype).ok()? {
        FixlenType::Fp32 => scalar(carried, id, FloatType::Fp32, len),
        FixlenType::Fp64 => scalar(carried, id, FloatType::Fp64, len),
        FixlenType::Str => announced(carried, id, RawType::Str, len),
        FixlenType::Blob => announced(carried, id, RawType::Blob, len),
    }
}

// A float array is announced, its elements being of this size.
pub fn float_array(
    carried: Carried,
    id: u32,
    count: u32,
    w: FloatType,
    size: u64,
) -> Option<Stepped>
    ensures { result ≡ stepped (at_element carried.depth id count size (known (float (width w)))) }
{
    if size == (w.bytes() as u64) {
        let announced = Event::Array(id, w.kind(), count);
        Some(Stepped::Raised(announced, floats(id, w, count), carried))
    } else {
        None
    }
}

// A float array's word is whole. Its subtype too is the wire's number, which may name none.
pub fn element(carried: Carried, id: u32, count: u32, len: u64, subtype: u8) -> Option<Stepped>
    ensures { result ≡ stepped (at_element carried.depth id count len (subtype_of subtype)) }
{
    match FixlenType::try_from(subtype).ok()? {
        FixlenType::Fp32 => float_array(carried, id, count, FloatType::Fp32, len),
        FixlenType::Fp64 => float_array(carried, id, count, FloatType::Fp64, len),
        FixlenType::Str | FixlenType::Blob => None,
    }
}
