// Past what follows a header, at the start of a message's bytes: a fixed-length field's word and bytes, an array's count and elements.
// Payloads and float arrays are jumped over. What follows a word stands by itself, for callers that ask for the word too.
#![tactic(auto)]

ghost use Rattle.std.specs.Prelude.{◌≡◌, ℕ, ◌≤◌};
ghost use Rattle.layout.specs.Limits.{base};
ghost use Rattle.layout.specs.Field.{t_fixlen, t_unsigneds, t_floats};
ghost use Rattle.types.specs.Types.{subtype};
ghost use Rattle.passing.specs.Passing.{Passes};
ghost use Rattle.bodies.specs.Bodies.{fits, after_body, after_word, after_floats};

use passing::{Stop, count_at, jump, skip_varints, varint_at};
use types::{FIXLEN_MAX, FP32_WORD, FP64_WORD, FixlenType};

// Whether n bytes can be a fixed-length field of this subtype: a fact of the layout for each case.
fn fits(t: FixlenType, n: u64) -> bool
    ensures { result ≡ fits (subtype t) n }
{
    match t {
        FixlenType::Fp32 => n == 4,
        FixlenType::Fp64 => n == 8,
        FixlenType::Str | FixlenType::Blob => n <= FIXLEN_MAX as u64,
    }
}

// The bytes of a fixed-length field, by its word.
pub fn bytes_at(bytes: &[u8], word: u64) -> Result<&[u8], Stop<&[u8]>>
    ensures { (id : ℕ) → Passes (after_word id word bytes.now) result }
{
    let n = word / 8;
    match FixlenType::try_from((word % 8) as u8) {
        Ok(subtype) if fits(subtype, n) => jump(bytes, n),
        _ => Err(Stop::Broken(bytes)),
    }
}

// A fixed-length field's word, and its bytes. (So stand an array's count and its elements below: two lines, which name two steps.)
pub fn fixlen_at(bytes: &[u8]) -> Result<&[u8], Stop<&[u8]>>
    ensures { (id : ℕ) → Passes (after_body id t_fixlen bytes.now) result }
{
    let (word, rest) = varint_at(bytes)?;
    bytes_at(rest, word)
}

// Signed elements end where unsigned ones do.
pub fn array_at(bytes: &[u8]) -> Result<&[u8], Stop<&[u8]>>
    ensures { (id : ℕ) → Passes (after_body id t_unsigneds bytes.now) result }
{
    let (n, rest) = count_at(bytes)?;
    skip_varints(rest, n)
}

// The bytes of n floats, by their word. (`shortest::float_bytes` has this match too, in a crate that stands beside this one: it would come
// to stand below for these two lines.)
pub fn floats_at(bytes: &[u8], n: u64, word: u64) -> Result<&[u8], Stop<&[u8]>>
    requires { n ≤ base.count }
    ensures { (id : ℕ) → Passes (after_floats id n word bytes.now) result }
{
    match word {
        FP32_WORD => jump(bytes, n * 4),
        FP64_WORD => jump(bytes, n * 8),
        _ => Err(Stop::Broken(bytes)),
    }
}

// A float array's count, the word of its floats, and their bytes.
pub fn float_array_at(bytes: &[u8]) -> Result<&[u8], Stop<&[u8]>>
    ensures { (id : ℕ) → Passes (after_body id t_floats bytes.now) result }
{
    let (n, rest) = count_at(bytes)?;
    let (word, rest) = varint_at(rest)?;
    floats_at(rest, n, word)
}
