// What is under way in a message, the Rust's `State` with the numbers that each case has in force: the phases, which of them can be, what
// an array's elements leave, and what a byte comes to.
#![tactic(auto)]

ghost use Rattle.std.specs.Prelude.{◌≡◌, ◌&&◌, ◌-◌};
ghost use Rattle.layout.specs.Limits.{base};
ghost use Rattle.machine.specs.Machine.{in_unsigned, in_signed, in_float, first_or, idle};
ghost use Rattle.types.specs.Types.{width};
ghost use Rattle.varint.specs.Varint.{sound_acc};
ghost use Rattle.phase.specs.Phases.{phase_in, id_in, count_in, sound_phase};

use event::Event;
use types::{ARRAY_MAX, FIXLEN_MAX, FloatType, ID_MAX, RawType};
use varint::Acc;

// What is under way, with the numbers in force and no others: the id; an array's elements from the current one on; a varint or a float's
// bytes so far, or a payload's length and the place reached in it. Between fields no byte of a header is taken.
// `Empty`: an empty payload's one piece is still due. `Broken` is never left, and is a phase like the others, not a missing value.
// A scalar has 0 elements, as 01 counts them: an Option's None and Some(1) would be two cases that go on alike.
// A payload's four numbers stand one by one, here and in the functions on them: as a struct, a blob in chunks took 1.4 times as long.
#[derive(Clone, Copy)]
pub enum Phase {
    Header(Acc),
    Unsigned(u32, u32, Acc),
    Signed(u32, u32, Acc),
    Word(u32, Acc),
    UnsignedCount(u32, Acc),
    SignedCount(u32, Acc),
    FloatCount(u32, Acc),
    ArrayWord(u32, u32, Acc),
    Float(u32, FloatType, u32, u8, u64),
    Payload(u32, RawType, u32, u32),
    Empty(u32, RawType),
    Broken,
}

// What every step carries along, whatever is under way: how many sequences are open. It goes beside the phase, not in a struct with it:
// with one in `Stepped`, `Once` and `CallEnd`, strings, arrays and nested sequences took 1.2 times as long, a blob in chunks 1.5 times.
#[derive(Clone, Copy)]
pub struct Carried {
    pub depth: u8,
}

// What one byte comes to, where it doesn't break the message: the phase after it and what is carried along, or an event before them. (No
// struct with an Option<Event>: both cases would be asked for at each byte as they are here, by one more name.)
#[derive(Clone, Copy)]
pub enum Stepped {
    On(Phase, Carried),
    Raised(Event, Phase, Carried),
}

// Between fields.
#[inline(always)]
pub fn idle() -> Phase
    ensures { result ≡ phase_in idle }
{
    Phase::Header(Acc::new())
}

// The elements left of an array come next; or, where none is left, the next field. These three differ in the phase that they make: one
// function that is handed a way to make it would be no shorter.
#[inline(always)]
pub fn unsigneds(id: u32, left: u32) -> Phase
    ensures { result ≡ phase_in (first_or left (λ m. in_unsigned id m 0 0)) }
{
    if left == 0 {
        idle()
    } else {
        Phase::Unsigned(id, left, Acc::new())
    }
}

#[inline(always)]
pub fn signeds(id: u32, left: u32) -> Phase
    ensures { result ≡ phase_in (first_or left (λ m. in_signed id m 0 0)) }
{
    if left == 0 {
        idle()
    } else {
        Phase::Signed(id, left, Acc::new())
    }
}

#[inline(always)]
pub fn floats(id: u32, w: FloatType, left: u32) -> Phase
    ensures { result ≡ phase_in (first_or left (λ m. in_float id (width w) m 0 0)) }
{
    if left == 0 {
        idle()
    } else {
        Phase::Float(id, w, left, 0, 0)
    }
}

// One element fewer; a scalar has 0.
#[inline(always)]
pub fn less(left: u32) -> u32
    ensures { result ≡ left - 1 }
{
    left.saturating_sub(1)
}

// Whether a varint under way can be so: its id, the elements left and its bytes.
pub fn sound_varint(id: u32, left: u32, a: Acc) -> bool
    ensures { result ≡ (id_in base id && (count_in base left && sound_acc base a)) }
{
    id <= ID_MAX && left <= ARRAY_MAX && a.sound()
}

#[tactic(auto, using(crate::proofs::Phases::below))]
pub fn sound_float(id: u32, w: FloatType, left: u32, k: u8, v: u64) -> bool
    ensures { result ≡ sound_phase base (Phase.Float id w left k v) }
{
    id <= ID_MAX && left <= ARRAY_MAX && k < w.bytes() && v >> (k * 8) == 0
}

pub fn sound_payload(id: u32, r: RawType, total: u32, offset: u32) -> bool
    ensures { result ≡ sound_phase base (Phase.Payload id r total offset) }
{
    id <= ID_MAX && total <= FIXLEN_MAX && offset < total
}

// Whether a reader can be within this. Only numbers in force are tested.
pub fn sound(phase: Phase) -> bool
    ensures { result ≡ sound_phase base phase }
{
    match phase {
        Phase::Header(a) => a.sound(),
        Phase::Unsigned(id, left, a) | Phase::Signed(id, left, a) | Phase::ArrayWord(id, left, a) =>
            sound_varint(id, left, a),
        Phase::Word(id, a)
        | Phase::UnsignedCount(id, a)
        | Phase::SignedCount(id, a)
        | Phase::FloatCount(id, a) => sound_varint(id, 0, a),
        Phase::Float(id, w, left, k, v) => sound_float(id, w, left, k, v),
        Phase::Payload(id, r, total, offset) => sound_payload(id, r, total, offset),
        Phase::Empty(id, _) => id <= ID_MAX,
        Phase::Broken => true,
    }
}

// A varint under way, rebuilt from its numbers, for `rebuilt` below.
#[inline(always)]
fn acc_rebuilt(a: Acc) -> Acc
    ensures { result ≡ a }
{
    Acc {
        value: a.value,
        taken: a.taken,
    }
}

// A phase, rebuilt from its numbers. (Where whole copies went to and from the slow form, rows took 1.3 to 2.8 times as long.)
#[inline(always)]
pub fn rebuilt(phase: Phase) -> Phase
    ensures { result ≡ phase }
{
    match phase {
        Phase::Header(a) => Phase::Header(acc_rebuilt(a)),
        Phase::Unsigned(id, left, a) => Phase::Unsigned(id, left, acc_rebuilt(a)),
        Phase::Signed(id, left, a) => Phase::Signed(id, left, acc_rebuilt(a)),
        Phase::Word(id, a) => Phase::Word(id, acc_rebuilt(a)),
        Phase::UnsignedCount(id, a) => Phase::UnsignedCount(id, acc_rebuilt(a)),
        Phase::SignedCount(id, a) => Phase::SignedCount(id, acc_rebuilt(a)),
        Phase::FloatCount(id, a) => Phase::FloatCount(id, acc_rebuilt(a)),
        Phase::ArrayWord(id, count, a) => Phase::ArrayWord(id, count, acc_rebuilt(a)),
        Phase::Float(id, w, left, k, v) => Phase::Float(id, w, left, k, v),
        Phase::Payload(id, r, total, offset) => Phase::Payload(id, r, total, offset),
        Phase::Empty(id, r) => Phase::Empty(id, r),
        Phase::Broken => Phase::Broken,
    }
}
