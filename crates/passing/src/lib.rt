// Past one thing at the start of a message's bytes: a varint, a header, a count, n varints, n bytes. What comes out are the bytes that are
// left after it. The layout's reader says what that is (`crates/layout/specs/Message`), and `specs/Passing` which of its outcomes an answer
// stands for.
#![tactic(auto)]

ghost use Rattle.layout.specs.Limits.{base};
ghost use Rattle.layout.specs.Varint.{varint};
ghost use Rattle.layout.specs.Message.{header_of, count_of};
ghost use Rattle.passing.specs.Passing.{Reaches, Passes, ends, skips, hop};

use types::{ARRAY_MAX, ID_MAX};
use varint::{Acc, LAST_BYTE, Push};

// Why there is no going on: the message ends within what was to be passed; or a byte breaks it. P says which byte: by its number, or, where
// only a part is read, by the bytes left after it. It is the error of Results, and `Short` is a reason, not a missing value.
#[derive(Clone, Copy)]
pub enum Stop<P = usize> {
    Short,
    Broken(P),
}

// ---- varints: a value and the bytes after it

// Any varint. (`own` and `read_at_once` push bytes so too: each has another thing to do at each answer, and all that they share are these
// three arms. In line, here and in `skip_at`: what is left would go through memory on the way to the next.)
#[inline(always)]
fn value_at(bytes: &[u8]) -> Result<(u64, &[u8]), Stop<&[u8]>>
    ensures { Reaches (varint base bytes.now) result }
{
    let mut acc = Acc::new();
    let mut rest = bytes;
    // Byte by byte to the one that ends it: a `for` has the bytes, but not those left.
    while let [b, after @ ..] = rest {
        match acc.push(*b) {
            Push::More(more) => acc = more,
            Push::Value(v) => return Ok((v, after)),
            Push::Overlong => return Err(Stop::Broken(after)),
        }
        rest = after;
    }
    Err(Stop::Short)
}

// The same, out of line.
#[inline(never)]
pub fn long_varint_at(bytes: &[u8]) -> Result<(u64, &[u8]), Stop<&[u8]>>
    ensures { Reaches (varint base bytes.now) result }
{
    value_at(bytes)
}

// Most words and counts are one byte.
pub fn varint_at(bytes: &[u8]) -> Result<(u64, &[u8]), Stop<&[u8]>>
    ensures { Reaches (varint base bytes.now) result }
{
    match bytes {
        [b, rest @ ..] if *b < 128 => Ok((*b as u64, rest)),
        _ => long_varint_at(bytes),
    }
}

// A header, out of line.
#[inline(never)]
fn long_header_at(bytes: &[u8]) -> Result<(u64, &[u8]), Stop<&[u8]>>
    ensures { Reaches (header_of base bytes.now) result }
{
    let (h, rest) = value_at(bytes)?;
    if (ID_MAX as u64) < h / 8 {
        return Err(Stop::Broken(rest));
    }
    Ok((h, rest))
}

// A header of one byte, two or three has a small id.
pub fn header_at(bytes: &[u8]) -> Result<(u64, &[u8]), Stop<&[u8]>>
    ensures { Reaches (header_of base bytes.now) result }
{
    match bytes {
        [b, rest @ ..] if *b < 128 => Ok((*b as u64, rest)),
        [b, c, rest @ ..] if *c < 128 => Ok(((*b % 128) as u64 + *c as u64 * 128, rest)),
        [b, c, d, rest @ ..] if *d < 128 => Ok((
            (*b % 128) as u64 + (*c % 128) as u64 * 128 + *d as u64 * 16384,
            rest,
        )),
        _ => long_header_at(bytes),
    }
}

// An array's count.
pub fn count_at(bytes: &[u8]) -> Result<(u64, &[u8]), Stop<&[u8]>>
    ensures { Reaches (count_of base bytes.now) result }
{
    let (n, rest) = varint_at(bytes)?;
    if (ARRAY_MAX as u64) < n {
        return Err(Stop::Broken(rest));
    }
    Ok((n, rest))
}

// ---- varints whose values are not asked for: the bytes after them

// A varint: its end, and the rule of the tenth byte. (`shortest` looks for such an end too, but of the shortest form alone, which has
// another rule for the last byte at each length: what they share is the loop's head.)
#[inline(always)]
pub fn skip_at(bytes: &[u8]) -> Result<&[u8], Stop<&[u8]>>
    ensures { Passes (λ d. ends d (varint base bytes.now)) result }
{
    let mut rest = bytes;
    for _ in 0..LAST_BYTE {
        let [b, after @ ..] = rest else {
            return Err(Stop::Short);
        };
        if *b < 128 {
            return Ok(after);
        }
        rest = after;
    }
    match rest {
        [] => Err(Stop::Short),
        [b, after @ ..] if *b <= 1 => Ok(after),
        [_, after @ ..] => Err(Stop::Broken(after)),
    }
}

// Most scalars are one byte.
pub fn scalar_at(bytes: &[u8]) -> Result<&[u8], Stop<&[u8]>>
    ensures { Passes (λ d. ends d (varint base bytes.now)) result }
{
    match bytes {
        [b, rest @ ..] if *b < 128 => Ok(rest),
        _ => skip_at(bytes),
    }
}

// Most elements are one byte or two.
pub fn element_at(bytes: &[u8]) -> Result<&[u8], Stop<&[u8]>>
    ensures { Passes (λ d. ends d (varint base bytes.now)) result }
{
    match bytes {
        [b, rest @ ..] if *b < 128 => Ok(rest),
        [_, b, rest @ ..] if *b < 128 => Ok(rest),
        _ => skip_at(bytes),
    }
}

// n varints.
pub fn skip_varints(bytes: &[u8], n: u64) -> Result<&[u8], Stop<&[u8]>>
    ensures { Passes (λ d. skips base d n bytes.now) result }
{
    let mut rest = bytes;
    for _ in 0..n {
        rest = element_at(rest)?;
    }
    Ok(rest)
}

// ---- bytes

// n bytes further, where there are so many.
pub fn jump(bytes: &[u8], n: u64) -> Result<&[u8], Stop<&[u8]>>
    ensures { Passes (λ d. hop d n bytes.now) result }
{
    bytes.get(n as usize..).ok_or(Stop::Short)
}
