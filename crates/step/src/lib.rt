// One byte of a message, in a phase that is read byte by byte.
#![tactic(auto)]

ghost use Rattle.std.specs.Prelude.{◌≡◌, ◌^◌, ◌<◌, leb, Some, None};
ghost use Rattle.layout.specs.Limits.{base, pick};
ghost use Rattle.layout.specs.Field.{bytes_of};
ghost use Rattle.machine.specs.Machine.{in_float, at_header, at_unsigned, at_signed, at_word, at_unsigned_count, at_signed_count, at_float_count, at_array_word, step};
ghost use Rattle.types.specs.Types.{width};
ghost use Rattle.varint.specs.Varint.{Sound};
ghost use Rattle.phase.specs.Phases.{state_at};
ghost use Rattle.phase.specs.Sound.{AtBytes};
ghost use Rattle.phase.specs.Steps.{stepped, step_on};
ghost use Rattle.step.specs.Takes.{Takes};

use event::{Event, float_event};
use headers::field;
use phase::{Carried, Phase, Stepped, floats, less, signeds, unsigneds};
use types::{ARRAY_MAX, ArrayKind, FloatType, ID_MAX};
use varint::{Acc, Push, zigzag_decode};
use words::{element, fixlen};

// A varint's byte. More are to come, and what is under way has the longer varint; or the value is whole; or the varint is overlong.
#[inline(always)]
fn varint<P: FnOnce(Acc) -> Phase, V: FnOnce(u64) -> Option<Stepped>>(
    carried: Carried,
    a: Acc,
    b: u8,
    under_way: P,
    whole: V,
) -> Option<Stepped>
    requires sound { Sound base a }
    requires more { P.IsAlwaysCallable under_way }
    requires value { V.IsAlwaysCallable whole }
    ensures { Takes (P.post under_way) (V.post whole) carried.depth a b result }
{
    let p = a.push(b);
    let Push::Value(v) = p else {
        let Push::More(next) = p else {
            return None;
        };
        return Some(Stepped::On(under_way(next), carried));
    };
    whole(v)
}

// A header's varint is whole: it is taken apart, and refused where its id is too large.
#[tactic(auto, unfolding(machine::specs::Machine::at_header))]
fn header(carried: Carried, h: u64) -> Option<Stepped>
    ensures { result ≡ stepped (at_header base carried.depth h) }
{
    let id = h / 8;
    if (ID_MAX as u64) < id {
        return None;
    }
    field(carried, id as u32, (h % 8) as u8)
}

// A number is whole: a scalar or an element. Signed ones differ in event and phase: one function that is handed both would be no shorter.
#[tactic(auto, using(phase::proofs::Phases::next_first), unfolding(machine::specs::Machine::at_unsigned))]
fn unsigned(carried: Carried, id: u32, left: u32, v: u64) -> Option<Stepped>
    ensures { result ≡ stepped (at_unsigned carried.depth id left v) }
{
    let next = unsigneds(id, less(left));
    Some(Stepped::Raised(Event::Unsigned(id, v), next, carried))
}

#[tactic(auto, using(phase::proofs::Phases::next_first), unfolding(machine::specs::Machine::at_signed))]
fn signed(carried: Carried, id: u32, left: u32, v: u64) -> Option<Stepped>
    ensures { result ≡ stepped (at_signed carried.depth id left v) }
{
    let next = signeds(id, less(left));
    Some(Stepped::Raised(Event::Signed(id, zigzag_decode(v)), next, carried))
}

// A word is whole.
#[tactic(auto, unfolding(machine::specs::Machine::at_word))]
fn word(carried: Carried, id: u32, w: u64) -> Option<Stepped>
    ensures { result ≡ stepped (at_word base carried.depth id w) }
{
    fixlen(carried, id, w / 8, (w % 8) as u8)
}

// How many elements are counted, if an array can have so many. (`own` and `passing` test their counts where they read them, and answer what
// is left too.)
fn count(n: u64) -> Option<u32>
    ensures { result ≡ pick (leb n base.count) (Some n) None }
{
    if (ARRAY_MAX as u64) < n {
        return None;
    }
    Some(n as u32)
}

// A count is whole; unsigned and signed ones stand apart as the numbers above do.
#[tactic(auto, unfolding(machine::specs::Machine::at_unsigned_count))]
fn unsigned_count(carried: Carried, id: u32, n: u64) -> Option<Stepped>
    ensures { result ≡ stepped (at_unsigned_count base carried.depth id n) }
{
    let n = count(n)?;
    let announced = Event::Array(id, ArrayKind::Unsigned, n);
    Some(Stepped::Raised(announced, unsigneds(id, n), carried))
}

#[tactic(auto, unfolding(machine::specs::Machine::at_signed_count))]
fn signed_count(carried: Carried, id: u32, n: u64) -> Option<Stepped>
    ensures { result ≡ stepped (at_signed_count base carried.depth id n) }
{
    let n = count(n)?;
    let announced = Event::Array(id, ArrayKind::Signed, n);
    Some(Stepped::Raised(announced, signeds(id, n), carried))
}

// A float array is announced at its word, not here.
#[tactic(auto, unfolding(machine::specs::Machine::at_float_count))]
fn float_count(carried: Carried, id: u32, n: u64) -> Option<Stepped>
    ensures { result ≡ stepped (at_float_count base carried.depth id n) }
{
    let word = Phase::ArrayWord(id, count(n)?, Acc::new());
    Some(Stepped::On(word, carried))
}

#[tactic(auto, unfolding(machine::specs::Machine::at_array_word))]
fn array_word(carried: Carried, id: u32, count: u32, w: u64) -> Option<Stepped>
    ensures { result ≡ stepped (at_array_word carried.depth id count w) }
{
    element(carried, id, count, w / 8, (w % 8) as u8)
}

// A float's byte, low byte first.
#[inline(always)]
fn float(
    carried: Carried,
    id: u32,
    w: FloatType,
    left: u32,
    k: u8,
    v: u64,
    b: u8,
) -> Option<Stepped>
    requires { (k < bytes_of (width w)) × (v < 256 ^ k) }
    ensures { result ≡ stepped (step base carried.depth (in_float id (width w) left k v) b) }
{
    let x = v | ((b as u64) << (k * 8));
    if k + 1 < w.bytes() {
        Some(Stepped::On(Phase::Float(id, w, left, k + 1, x), carried))
    } else {
        let next = floats(id, w, less(left));
        Some(Stepped::Raised(float_event(id, w, x), next, carried))
    }
}

// One byte, in a sound phase that is read byte by byte. Only the reader calls this, which has tested the phase.
#[inline(always)]
pub fn step(carried: Carried, phase: Phase, b: u8) -> Option<Stepped>
    requires { AtBytes base (state_at carried.depth phase) }
    ensures { result ≡ stepped (step_on base (state_at carried.depth phase) b) }
{
    match phase {
        Phase::Header(a) => varint(carried, a, b, |a| Phase::Header(a), |h| header(carried, h)),
        Phase::Unsigned(id, left, a) => varint(
            carried,
            a,
            b,
            |a| Phase::Unsigned(id, left, a),
            |v| unsigned(carried, id, left, v),
        ),
        Phase::Signed(id, left, a) => varint(
            carried,
            a,
            b,
            |a| Phase::Signed(id, left, a),
            |v| signed(carried, id, left, v),
        ),
        Phase::Word(id, a) => varint(
            carried,
            a,
            b,
            |a| Phase::Word(id, a),
            |w| word(carried, id, w),
        ),
        Phase::UnsignedCount(id, a) => varint(
            carried,
            a,
            b,
            |a| Phase::UnsignedCount(id, a),
            |n| unsigned_count(carried, id, n),
        ),
        Phase::SignedCount(id, a) => varint(
            carried,
            a,
            b,
            |a| Phase::SignedCount(id, a),
            |n| signed_count(carried, id, n),
        ),
        Phase::FloatCount(id, a) => varint(
            carried,
            a,
            b,
            |a| Phase::FloatCount(id, a),
            |n| float_count(carried, id, n),
        ),
        Phase::ArrayWord(id, count, a) => varint(
            carried,
            a,
            b,
            |a| Phase::ArrayWord(id, count, a),
            |w| array_word(carried, id, count, w),
        ),
        Phase::Float(id, w, left, k, v) => float(carried, id, w, left, k, v, b),
        Phase::Payload(_, _, _, _) | Phase::Empty(_, _) | Phase::Broken => None,
    }
}
