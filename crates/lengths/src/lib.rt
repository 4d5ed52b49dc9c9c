// Past one thing at the start of a message's bytes, as in `passing` and `bodies`, with how many bytes the plain copy has for it: each
// varint as many as its value needs, all else as many as it has. Each function has one beside it there that gives no length; what is done
// at each step is other here (a varint of two bytes is taken as it stands only in its shortest form), so one for both would take a trait
// with a member for each.
#![tactic(auto)]

ghost use Rattle.layout.specs.Limits.{base};
ghost use Rattle.layout.specs.Varint.{varint};
ghost use Rattle.layout.specs.Field.{t_unsigned, t_signed, t_fixlen, t_unsigneds, t_signeds, t_floats};
ghost use Rattle.lengths.specs.Lengths.{Sizes, BodySizes, sized, varint_length, varints};

use bodies::{bytes_at, floats_at};
use passing::{Stop, count_at, long_varint_at, varint_at};
use shortest::number_at;
use varint::{varint_len, width};

// ---- varints

// Any varint, by its value.
fn value_len(bytes: &[u8]) -> Result<(usize, &[u8]), Stop<&[u8]>>
    ensures { Sizes (λ n. sized varint_length n (varint base bytes.now)) result }
{
    let (v, rest) = long_varint_at(bytes)?;
    Ok((varint_len(v), rest))
}

// Out of line: in line, the loop over elements had this call's ways in it, and elements of one byte took 1.7 times as long. Most varints are
// in their shortest form, and so as long as they stand.
#[inline(never)]
fn long_len(bytes: &[u8]) -> Result<(usize, &[u8]), Stop<&[u8]>>
    ensures { Sizes (λ n. sized varint_length n (varint base bytes.now)) result }
{
    if let Some(rest) = number_at(bytes) {
        return Ok((bytes.len() - rest.len(), rest));
    }
    value_len(bytes)
}

// n elements, one by one. Most are one byte or two; they are looked for here, each with its own way on, since a function of its own that
// answers a length had the loop take up to 1.7 times as long. (So short a loop stands here and in passing's `skip_varints`: one that is handed
// its step would be no shorter.)
fn elements_len(bytes: &[u8], n: u64) -> Result<(usize, &[u8]), Stop<&[u8]>>
    ensures { Sizes (λ m. varints base m n bytes.now) result }
{
    let mut len: usize = 0;
    let mut rest = bytes;
    for _ in 0..n {
        match rest {
            [b, after @ ..] if *b < 128 => {
                len += 1;
                rest = after;
                continue;
            }
            [_, b, after @ ..] if 0 < *b && *b < 128 => {
                len += 2;
                rest = after;
                continue;
            }
            _ => {}
        }
        let (one, after) = long_len(rest)?;
        len += one;
        rest = after;
    }
    Ok((len, rest))
}

// ---- what follows a header

// Most scalars are one byte. A signed one is counted as the unsigned one that is read there.
pub fn scalar_len(bytes: &[u8]) -> Result<(usize, &[u8]), Stop<&[u8]>>
    ensures { BodySizes t_unsigned bytes.now result × BodySizes t_signed bytes.now result }
{
    match bytes {
        [b, rest @ ..] if *b < 128 => Ok((1, rest)),
        _ => long_len(bytes),
    }
}

// A word, and the bytes that it says.
pub fn fixlen_len(bytes: &[u8]) -> Result<(usize, &[u8]), Stop<&[u8]>>
    ensures { BodySizes t_fixlen bytes.now result }
{
    let (word, rest) = varint_at(bytes)?;
    let rest = bytes_at(rest, word)?;
    Ok((width(word) + (word / 8) as usize, rest))
}

// A count, and so many elements.
pub fn array_len(bytes: &[u8]) -> Result<(usize, &[u8]), Stop<&[u8]>>
    ensures { BodySizes t_unsigneds bytes.now result × BodySizes t_signeds bytes.now result }
{
    let (n, rest) = count_at(bytes)?;
    let (len, rest) = elements_len(rest, n)?;
    Ok((width(n) + len, rest))
}

// A count, the word of the floats, and their bytes.
pub fn float_array_len(bytes: &[u8]) -> Result<(usize, &[u8]), Stop<&[u8]>>
    ensures { BodySizes t_floats bytes.now result }
{
    let (n, rest) = count_at(bytes)?;
    let (word, rest) = varint_at(rest)?;
    let rest = floats_at(rest, n, word)?;
    let size = (n * (word / 8)) as usize;
    Ok((width(n) + width(word) + size, rest))
}
