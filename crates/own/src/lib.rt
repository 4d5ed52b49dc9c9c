// How far a byte slice goes, from a field boundary on, in whole fields that stand in their shortest form already: each varint as short as
// its value allows, each close 07. Such bytes are their own plain copy. Payloads and float arrays are jumped over.
// The contracts say what holds of the bytes up to the place that was reached, and not that it is the last such place: a shorter run
// would be slower and no less right. The private functions answer none for what is not so, or not whole.
#![tactic(auto)]

ghost use Rattle.std.specs.Prelude.{◌≡◌, ℕ, ◌+◌, ◌/◌, ◌%◌, ◌≤◌, ◌<◌, ◌++◌, length, take, IfSome};
ghost use Rattle.layout.specs.Limits.{base};
ghost use Rattle.layout.specs.Varint.{shortest};
ghost use Rattle.layout.specs.Field.{t_fixlen, t_unsigneds, t_signeds, t_floats};
ghost use Rattle.shortest.specs.Own.{OwnFields, Numbers, Number, Body, Ends};

use shortest::{float_bytes, is_close, long_number_at};
use types::{
    ARRAY_MAX, FIXLEN_MAX, FixlenType, ID_MAX, T_FIXLEN, T_FIXLENARRAY, T_SEQUENCE_START,
    T_VARINT_SIGNED, T_VARINT_UNSIGNED, T_VARINTARRAY_SIGNED, T_VARINTARRAY_UNSIGNED,
};
use varint::{Acc, Push};

// Fields: the place after them, and the depth there. (An end, here and in `Row`, and not what is behind it: the callers hand on the bytes
// before it.)
#[derive(Clone, Copy)]
pub struct Run {
    pub end: usize,
    pub depth: u8,
}

// Numbers in a row: the place after them, and how many they are.
#[derive(Clone, Copy)]
pub struct Row {
    pub end: usize,
    pub count: u32,
}

// ---- varints

// Most elements are one byte or two. (Passing's `element_at`, and its `scalar_at` beside the one below, take longer varints too, and say
// why there is none.) What the call out of line answers is taken apart at once: handed on, all answers went through memory, and fields with
// headers of two bytes took 1.8 times as long.
fn number_at(t: &[u8]) -> Option<&[u8]>
    ensures { IfSome result (λ r. Ends t.now Number r.now) }
{
    match t {
        [0..128, rest @ ..] => Some(rest),
        [_, 1..128, rest @ ..] => Some(rest),
        _ => Some(long_number_at(t)?),
    }
}

// The value behind the header h: behind a header of one byte or two most are short as well.
fn scalar_at(t: &[u8], h: u64) -> Option<&[u8]>
    ensures { IfSome result (λ r. Ends t.now Number r.now) }
{
    if h < 16384 {
        number_at(t)
    } else {
        Some(long_number_at(t)?)
    }
}

// A varint with its value. Out of line its answer would go through memory, and headers of three bytes took 1.5 times as long.
// Passing's and read_at_once's loops over `push` answer otherwise at each of its three cases: one loop for all would take three closures.
#[inline(always)]
fn long_value_at(t: &[u8]) -> Option<(u64, &[u8])>
    ensures { IfSome result (λ r. Ends t.now (λ bs. bs ≡ shortest r.0) r.1.now) }
{
    let mut acc = Acc::new();
    for (k, &b) in t.iter().enumerate() {
        match acc.push(b) {
            Push::More(more) => {
                acc = more;
            }
            Push::Value(v) => {
                return if b == 0 && 0 < k {
                    None
                } else {
                    Some((v, &t[k + 1..]))
                };
            }
            Push::Overlong => {
                return None;
            }
        }
    }
    None
}

// The value of one byte or two: most headers, words and counts are no longer.
fn short_value_at(t: &[u8]) -> Option<(u64, &[u8])>
    ensures { IfSome result (λ r. Ends t.now (λ bs. (r.0 / 8 ≤ base.id) × (bs ≡ shortest r.0)) r.1.now) }
{
    match t {
        [b @ 0..128, rest @ ..] => Some((u64::from(*b), rest)),
        [b, c @ 1..128, rest @ ..] => Some((u64::from(*b % 128) + u64::from(*c) * 128, rest)),
        _ => None,
    }
}

fn value_at(t: &[u8]) -> Option<(u64, &[u8])>
    ensures { IfSome result (λ r. Ends t.now (λ bs. bs ≡ shortest r.0) r.1.now) }
{
    short_value_at(t).or_else(|| long_value_at(t))
}

// A header of one byte or two has a small id. (Passing's says why there is none, as its `count_at`.)
fn header_at(t: &[u8]) -> Option<(u64, &[u8])>
    ensures { IfSome result (λ r. Ends t.now (λ bs. (r.0 / 8 ≤ base.id) × (bs ≡ shortest r.0)) r.1.now) }
{
    short_value_at(t).or_else(|| long_value_at(t).filter(|(h, _)| *h / 8 <= ID_MAX as u64))
}

// As passing's `count_at`; and below `jump`, `fixlen_at`, `array_at` and `float_array_at` as those of passing and bodies, but for the
// answer: theirs says why there is none, which nobody asks here, and takes varints that are longer than needed.
fn count_at(t: &[u8]) -> Option<(u32, &[u8])>
    ensures { IfSome result (λ r. Ends t.now (λ bs. (r.0 ≤ base.count) × (bs ≡ shortest r.0)) r.1.now) }
{
    let (n, rest) = value_at(t)?;
    if n <= ARRAY_MAX as u64 {
        Some((n as u32, rest))
    } else {
        None
    }
}

// How many numbers stand at the start, `most` at most, and what is behind them. (Passing's `skip_varints` and the loop of lengths have no
// count to answer.)
fn numbers_at(t: &[u8], most: u32) -> (u32, &[u8])
    ensures { (result.0 ≤ most) × Ends t.now (Numbers base result.0) result.1.now }
{
    let mut rest = t;
    for count in 0..most {
        let Some(next) = number_at(rest) else {
            return (count, rest);
        };
        rest = next;
    }
    (most, rest)
}

// The array's elements that stand whole and in their shortest form at the start, `most` at most.
pub fn elements(bytes: &[u8], most: u32) -> Row
    ensures { (result.end ≤ length bytes.now) × (result.count ≤ most) × Numbers base result.count (take result.end bytes.now) }
{
    let (count, rest) = numbers_at(bytes, most);
    Row {
        end: bytes.len() - rest.len(),
        count,
    }
}

// ---- what follows a header

fn jump(t: &[u8], n: u64) -> Option<&[u8]>
    ensures { IfSome result (λ r. Ends t.now (λ bs. length bs ≡ n) r.now) }
{
    t.get(n as usize..)
}

fn fixlen_at(t: &[u8]) -> Option<&[u8]>
    ensures { IfSome result (λ r. Ends t.now (Body t_fixlen) r.now) }
{
    let (word, rest) = value_at(t)?;
    if let Some(n) = float_bytes(word) {
        return jump(rest, n);
    }
    let n = word / 8;
    match FixlenType::try_from((word % 8) as u8) {
        Ok(FixlenType::Str | FixlenType::Blob) if n <= FIXLEN_MAX as u64 => jump(rest, n),
        _ => None,
    }
}

// Signed elements are in their shortest form where unsigned ones are.
fn array_at(t: &[u8]) -> Option<&[u8]>
    ensures { IfSome result (λ r. Ends t.now (λ bs. Body t_unsigneds bs × Body t_signeds bs) r.now) }
{
    let (n, rest) = count_at(t)?;
    let (count, rest) = numbers_at(rest, n);
    if count == n { Some(rest) } else { None }
}

fn float_array_at(t: &[u8]) -> Option<&[u8]>
    ensures { IfSome result (λ r. Ends t.now (Body t_floats) r.now) }
{
    let (n, rest) = count_at(t)?;
    let (word, rest) = value_at(rest)?;
    jump(rest, u64::from(n) * float_bytes(word)?)
}

// ---- fields: the depth behind them, and what is behind them

// What follows the header h. A depth above MAX_DEPTH has no place in a byte. Bodies and lengths go by the same types, to other answers: one
// function for the three would take a trait with a member for each type.
fn body_at(t: &[u8], h: u64, depth: u8) -> Option<(u8, &[u8])>
    requires { h / 8 ≤ base.id }
    ensures { IfSome result (λ r. Ends t.now (λ bs. OwnFields base depth (shortest h ++ bs) r.0) r.1.now) }
{
    match (h % 8) as u8 {
        T_VARINT_UNSIGNED | T_VARINT_SIGNED => Some((depth, scalar_at(t, h)?)),
        T_FIXLEN => Some((depth, fixlen_at(t)?)),
        T_VARINTARRAY_UNSIGNED | T_VARINTARRAY_SIGNED => Some((depth, array_at(t)?)),
        T_FIXLENARRAY => Some((depth, float_array_at(t)?)),
        T_SEQUENCE_START => Some((depth.checked_add(1)?, t)),
        _ if is_close(h) => Some((depth.checked_sub(1)?, t)),
        _ => None,
    }
}

// Behind scalars of two bytes in a row. Most fields are no longer, and their loop is short by itself. No `for` over pairs: it wouldn't tell
// what is behind the last one.
fn smalls_at(t: &[u8]) -> &[u8]
    ensures { Ends t.now (λ bs. (d : ℕ) → OwnFields base d bs d) result.now }
{
    let mut rest = t;
    while let [h @ 0..128, 0..128, behind @ ..] = rest
        && *h % 8 <= T_VARINT_SIGNED
    {
        rest = behind;
    }
    rest
}

// An open of one byte, or a close, looked for before the rest, where `body_at` has them again: in one loop with all, fields took at best
// 1.3 to 1.4 times as long (docs/PERFORMANCE.md).
fn sequence_at(t: &[u8], depth: u8) -> Option<(u8, &[u8])>
    ensures { IfSome result (λ r. (length r.1.now < length t.now) × Ends t.now (λ bs. OwnFields base depth bs r.0) r.1.now) }
{
    let [h @ 0..128, rest @ ..] = t else {
        return None;
    };
    if *h % 8 == T_SEQUENCE_START {
        return Some((depth.checked_add(1)?, rest));
    }
    if is_close(u64::from(*h)) {
        return Some((depth.checked_sub(1)?, rest));
    }
    None
}

// One field, or more where they are small.
fn field_at(t: &[u8], depth: u8) -> Option<(u8, &[u8])>
    ensures { IfSome result (λ r. (length r.1.now < length t.now) × Ends t.now (λ bs. OwnFields base depth bs r.0) r.1.now) }
{
    let rest = smalls_at(t);
    if rest.len() < t.len() {
        return Some((depth, rest));
    }
    if let Some(behind) = sequence_at(t, depth) {
        return Some(behind);
    }
    let (h, rest) = header_at(t)?;
    body_at(rest, h, depth)
}

// How far whole fields in their shortest form go, from this depth on: no further than they begin, if the first isn't so, or isn't whole.
// Each field says where the next begins, so no iterator gives them.
#[inline(never)]
pub fn fields(bytes: &[u8], depth: u8) -> Run
    ensures { (result.end ≤ length bytes.now) × OwnFields base depth (take result.end bytes.now) result.depth }
{
    let mut rest = bytes;
    let mut reached = depth;
    while let Some((next, behind)) = field_at(rest, reached) {
        reached = next;
        rest = behind;
    }
    Run {
        end: bytes.len() - rest.len(),
        depth: reached,
    }
}
