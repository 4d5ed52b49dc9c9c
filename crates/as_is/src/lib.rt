// What stands in a chunk in its shortest form already, so that a copier sends it as it came: from a field boundary on whole fields, within
// an array whole elements. How far it goes the contracts leave open: where it is less, the copier goes on event by event.
#![tactic(auto)]

ghost use Rattle.std.specs.Prelude.{◌≡◌, true, ◌≤◌, ◌<◌, IfSome};
ghost use Rattle.layout.specs.Limits.{base};
ghost use Rattle.machine.specs.Machine.{in_float, idle};
ghost use Rattle.machine.specs.Calls.{reading};
ghost use Rattle.types.specs.Types.{width};
ghost use Rattle.istream.specs.Stream.{stream_in, sound_stream};
ghost use Rattle.as_is.specs.Ahead.{Ahead};

use istream::IStream;
use own::{elements, fields};
use phase::{Carried, Phase, floats, idle, signeds, unsigneds};
use types::FloatType;

// The bytes that go as they came, some at least, and the reader behind them.
#[derive(Clone, Copy)]
pub struct Block {
    pub len: usize,
    pub reader: IStream,
}

fn behind(len: usize, phase: Phase, carried: Carried) -> Option<Block>
    ensures { IfSome result (λ b. (0 < b.len) × (b.len ≡ len) × (b.reader ≡ record { phase = phase; carried = carried })) }
{
    if len == 0 {
        return None;
    }
    Some(Block {
        len,
        reader: IStream { phase, carried },
    })
}

// One byte is not worth a call of `fields`, nor is a header whose second byte is 0: none in its shortest form begins so.
fn whole_fields(depth: u8, bytes: &[u8]) -> Option<Block>
    ensures { IfSome result (λ b. (0 < b.len) × Ahead (stream_in (reading depth idle)) bytes.now b.len b.reader) }
{
    if matches!(bytes, [] | [_] | [128..=255, 0, ..]) {
        return None;
    }
    let run = fields(bytes, depth);
    behind(run.end, idle(), Carried { depth: run.depth })
}

// As many floats as stand whole, `left` at most.
fn float_elements(carried: Carried, id: u32, w: FloatType, left: u32, bytes: &[u8]) -> Option<Block>
    requires { (id ≤ base.id) × ((left ≤ base.count) × (0 < left)) }
    ensures { IfSome result (λ b. (0 < b.len) × Ahead (stream_in (reading carried.depth (in_float id (width w) left 0 0))) bytes.now b.len b.reader) }
{
    let size = w.bytes() as usize;
    let n = (bytes.len() / size).min(left as usize);
    behind(n * size, floats(id, w, left - n as u32), carried)
}

// From any sound reader; none where it stands within a varint, a float or a payload. A caller may make a reader of any numbers (01), so its
// type can't say that it is sound: that is tested once, where it comes in. The two arms of integers differ in a phase's constructor: one
// function would take it as a closure, with what it makes, and be no shorter.
pub fn as_is(reader: IStream, bytes: &[u8]) -> Option<Block>
    requires { sound_stream base reader ≡ true }
    ensures { IfSome result (λ b. (0 < b.len) × Ahead reader bytes.now b.len b.reader) }
{
    let carried = reader.carried;
    match reader.phase {
        Phase::Header(a) if a.taken == 0 => whole_fields(carried.depth, bytes),
        Phase::Unsigned(id, left, a) if a.taken == 0 && 0 < left => {
            let row = elements(bytes, left);
            behind(row.end, unsigneds(id, left - row.count), carried)
        }
        Phase::Signed(id, left, a) if a.taken == 0 && 0 < left => {
            let row = elements(bytes, left);
            behind(row.end, signeds(id, left - row.count), carried)
        }
        Phase::Float(id, w, left, k, _) if k == 0 && 0 < left => float_elements(
            carried, id, w, left, bytes,
        ),
        _ => None,
    }
}
