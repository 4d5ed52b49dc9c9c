// What a copier owes of an event that it has read.
#![tactic(auto)]

ghost use Rattle.std.specs.Prelude.{◌≡◌, []};
ghost use Rattle.event.specs.Event.{event_of};
ghost use Rattle.owed.specs.Owed.{owe};

use event::{Event, fp32_bits, fp64_bits};
use owed::Owed;
use types::{FixlenType, FloatType, RawType};

// What is owed of an event that came while so many elements of an array were due, the one that it is included: 0 in no array, as the phase
// counts them (an Option of the number would be taken apart here to ask the same). A subtype is named case by case: as a float's or else a
// payload's, by two `TryFrom`, it would take two tests and an arm that never is.
pub fn owe(left: u32, event: Event) -> Owed
    ensures { result ≡ owe left (event_of [] event) }
{
    match event {
        Event::Unsigned(id, v) if left == 0 => Owed::Unsigned(id, v),
        Event::Unsigned(_, v) => Owed::Element(v),
        Event::Signed(id, v) if left == 0 => Owed::Signed(id, v),
        Event::Signed(_, v) => Owed::SignedElement(v),
        Event::Fp32(_, x) => Owed::Fp32(fp32_bits(x)),
        Event::Fp64(_, x) => Owed::Fp64(fp64_bits(x)),
        Event::Fp32Nan(_, bits) => Owed::Fp32(bits),
        Event::Fp64Nan(_, bits) => Owed::Fp64(bits),
        Event::Str(_, _) | Event::Blob(_, _) => Owed::Nothing,
        Event::Fixlen(id, FixlenType::Fp32, _) => Owed::Float(id, FloatType::Fp32),
        Event::Fixlen(id, FixlenType::Fp64, _) => Owed::Float(id, FloatType::Fp64),
        Event::Fixlen(id, FixlenType::Str, total) => Owed::Payload(id, RawType::Str, total),
        Event::Fixlen(id, FixlenType::Blob, total) => Owed::Payload(id, RawType::Blob, total),
        Event::Array(id, kind, count) => Owed::Array(id, kind, count),
        Event::Begin(id) => Owed::Begin(id),
        Event::End => Owed::End,
    }
}
