// What stands whole in the chunk, read at once: a varint, an element, a field or the part of it up to its first event.
#![tactic(auto)]

ghost use Rattle.std.specs.Prelude.{◌≡◌, ◌≤◌, Some, IfSome};
ghost use Rattle.layout.specs.Limits.{base};
ghost use Rattle.layout.specs.Field.{wire_of};
ghost use Rattle.machine.specs.Machine.{in_unsigned, in_signed, idle, at_wire};
ghost use Rattle.machine.specs.Calls.{reading, call};
ghost use Rattle.read_at_once.specs.AtOnce.{Reads, Right, RightFrom, raised_of, read_on};

use event::Event;
use headers::{sequence_begin, sequence_end};
use phase::{Carried, Phase, Stepped, idle, less, signeds, sound_varint, unsigneds};
use types::{
    ID_MAX, T_FIXLEN, T_FIXLENARRAY, T_SEQUENCE_END, T_SEQUENCE_START, T_VARINT_SIGNED,
    T_VARINT_UNSIGNED,
};
use varint::{Acc, Push, zigzag_decode};
use words::fixlen;

// The state after a call, its event and the bytes read; or the chunk is spent, and the state stays. (The fields' order is for speed.)
// (No Option: `Spent` is an answer, and none of it says that nothing stands whole here; an Option in an Option would have two Nones.)
#[derive(Clone, Copy)]
pub enum Once {
    Done(Phase, Carried, Event, usize),
    Spent,
}

// Any varint: its value and the place after it, if it stands whole in the chunk and isn't broken.
// By places: over the rest of the chunk by an iterator, here, long varints took 1.05 times as long.
fn long_varint(chunk: &[u8], at: usize) -> Option<(u64, usize)>
    ensures { IfSome result (λ r. Reads base chunk.now at r.0 r.1) }
{
    let mut acc = Acc::new();
    for i in at..chunk.len() {
        match acc.push(chunk[i]) {
            Push::More(more) => acc = more,
            Push::Value(v) => return Some((v, i + 1)),
            Push::Overlong => return None,
        }
    }
    None
}

// Most varints are one byte or two; the longer ones are read out of line, by two places of call: as `#[inline(never)]`, long varints took
// 1.4 times as long. The chunk goes with a place, here and in `value_at`: a call answers how many bytes it read, which the place after them
// is. A rest of the chunk would go with that number too.
#[inline(always)]
fn varint(chunk: &[u8], at: usize) -> Option<(u64, usize)>
    ensures { IfSome result (λ r. Reads base chunk.now at r.0 r.1) }
{
    if chunk.len() <= at {
        return None;
    }
    let p = Acc::new().push(chunk[at]);
    if let Push::Value(v) = p {
        return Some((v, at + 1));
    }
    let Push::More(a) = p else {
        return None;
    };
    if chunk.len() <= at + 1 {
        return long_varint(chunk, at);
    }
    let q = a.push(chunk[at + 1]);
    if let Push::Value(v) = q {
        return Some((v, at + 2));
    }
    long_varint(chunk, at)
}

// A call that reads n bytes and stops at an event.
#[inline(always)]
fn done(n: usize, e: Event, phase: Phase, carried: Carried) -> Option<Once>
    ensures { result ≡ raised_of n (Some (Stepped.Raised e phase carried)) }
{
    Some(Once::Done(phase, carried, e, n))
}

// A call that stops where a byte, the nth of the chunk, may have raised an event.
fn raised(n: usize, s: Option<Stepped>) -> Option<Once>
    ensures { result ≡ raised_of n s }
{
    match s? {
        Stepped::Raised(e, phase, carried) => done(n, e, phase, carried),
        Stepped::On(_, _) => None,
    }
}

// An element, or the scalar after a header. Signed ones differ in event and phase: one function that is handed both would be no shorter.
#[inline(always)]
fn unsigned_at(carried: Carried, id: u32, left: u32, chunk: &[u8]) -> Option<Once>
    ensures { Right result (call base (reading carried.depth (in_unsigned id left 0 0)) chunk.now) }
{
    let (v, n) = varint(chunk, 0)?;
    done(
        n,
        Event::Unsigned(id, v),
        unsigneds(id, less(left)),
        carried,
    )
}

#[inline(always)]
fn signed_at(carried: Carried, id: u32, left: u32, chunk: &[u8]) -> Option<Once>
    ensures { Right result (call base (reading carried.depth (in_signed id left 0 0)) chunk.now) }
{
    let (v, n) = varint(chunk, 0)?;
    done(
        n,
        Event::Signed(id, zigzag_decode(v)),
        signeds(id, less(left)),
        carried,
    )
}

// What follows a header of this type at a place of the chunk. The type is the wire's number, here and below: an enum of the eight would be
// made only to be matched here.
fn value_at(carried: Carried, id: u32, wire: u8, chunk: &[u8], at: usize) -> Option<Once>
    requires { id ≤ base.id }
    ensures { Right result (read_on base chunk.now at (at_wire base carried.depth id (wire_of wire))) }
{
    let (v, n) = varint(chunk, at)?;
    match wire {
        T_VARINT_UNSIGNED => done(n, Event::Unsigned(id, v), idle(), carried),
        T_VARINT_SIGNED => done(n, Event::Signed(id, zigzag_decode(v)), idle(), carried),
        T_FIXLEN => raised(n, fixlen(carried, id, v / 8, (v % 8) as u8)),
        _ => None,
    }
}

// A whole field, or the part of it up to its first event.
fn field_at(carried: Carried, chunk: &[u8]) -> Option<Once>
    ensures { Right result (call base (reading carried.depth idle) chunk.now) }
{
    let (h, n) = varint(chunk, 0)?;
    let whole = h / 8;
    if (ID_MAX as u64) < whole {
        return None;
    }
    let id = whole as u32;
    let wire = (h % 8) as u8;
    match wire {
        T_FIXLENARRAY => None,
        T_SEQUENCE_START => raised(n, sequence_begin(carried, id)),
        T_SEQUENCE_END => raised(n, sequence_end(carried)),
        _ => value_at(carried, id, wire, chunk, n),
    }
}

// A call that finds a field or an element whole in the chunk, or no byte, from a sound phase that has taken no byte of it. The test for a
// spent chunk stands in each arm: before the match it would answer for phases that go to the slow form.
pub fn at_once(carried: Carried, phase: Phase, chunk: &[u8]) -> Option<Once>
    ensures { RightFrom base carried.depth phase result chunk.now }
{
    match phase {
        Phase::Header(a) if a.taken == 0 && a.sound() => {
            if chunk.is_empty() {
                return Some(Once::Spent);
            }
            field_at(carried, chunk)
        }
        Phase::Unsigned(id, left, a) if a.taken == 0 && sound_varint(id, left, a) => {
            if chunk.is_empty() {
                return Some(Once::Spent);
            }
            unsigned_at(carried, id, left, chunk)
        }
        Phase::Signed(id, left, a) if a.taken == 0 && sound_varint(id, left, a) => {
            if chunk.is_empty() {
                return Some(Once::Spent);
            }
            signed_at(carried, id, left, chunk)
        }
        _ => None,
    }
}
