// Where a header is whole: the event that is raised there, if any, and the phase and the depth after it.
#![tactic(auto)]

ghost use Rattle.std.specs.Prelude.{◌≡◌};
ghost use Rattle.layout.specs.Limits.{base};
ghost use Rattle.layout.specs.Field.{wire_of, t_begin, t_end};
ghost use Rattle.machine.specs.Machine.{at_wire};
ghost use Rattle.phase.specs.Steps.{stepped};

use event::Event;
use phase::{Carried, Phase, Stepped, idle};
use types::{
    T_FIXLEN, T_FIXLENARRAY, T_SEQUENCE_START, T_VARINT_SIGNED, T_VARINT_UNSIGNED,
    T_VARINTARRAY_SIGNED, T_VARINTARRAY_UNSIGNED,
};
use varint::Acc;

// A sequence is opened. A depth above MAX_DEPTH has no place in a byte.
pub fn sequence_begin(carried: Carried, id: u32) -> Option<Stepped>
    ensures { result ≡ stepped (at_wire base carried.depth id t_begin) }
{
    let depth = carried.depth.checked_add(1)?;
    Some(Stepped::Raised(Event::Begin(id), idle(), Carried { depth }))
}

// A sequence is closed; the id that a close carries is ignored.
pub fn sequence_end(carried: Carried) -> Option<Stepped>
    ensures { result ≡ stepped (at_wire base carried.depth 0 t_end) }
{
    let depth = carried.depth.checked_sub(1)?;
    Some(Stepped::Raised(Event::End, idle(), Carried { depth }))
}

// A header is whole and its id no larger than it may be: what its type begins. The type is the wire's number, by the names of `types`: an
// enum of the eight would be made here only to be matched.
pub fn field(carried: Carried, id: u32, wire: u8) -> Option<Stepped>
    ensures { result ≡ stepped (at_wire base carried.depth id (wire_of wire)) }
{
    let a = Acc::new();
    let next = match wire {
        T_VARINT_UNSIGNED => Phase::Unsigned(id, 0, a),
        T_VARINT_SIGNED => Phase::Signed(id, 0, a),
        T_FIXLEN => Phase::Word(id, a),
        T_VARINTARRAY_UNSIGNED => Phase::UnsignedCount(id, a),
        T_VARINTARRAY_SIGNED => Phase::SignedCount(id, a),
        T_FIXLENARRAY => Phase::FloatCount(id, a),
        T_SEQUENCE_START => return sequence_begin(carried, id),
        _ => return sequence_end(carried),
    };
    Some(Stepped::On(next, carried))
}
