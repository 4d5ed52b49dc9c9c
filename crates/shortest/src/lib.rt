// One thing recognised in its shortest form: a varint whose value is not asked for, a float's word, a close's header.
#![tactic(auto)]

ghost use Rattle.std.specs.Prelude.{◌≡◌, ◌+◌, ◌*◌, eqb, IfSome};
ghost use Rattle.layout.specs.Field.{Width, bytes_of, float, subtype_number, wire_number, t_end};
ghost use Rattle.shortest.specs.Own.{Number, Ends, FloatWord};

use types::{FP32_WORD, FP64_WORD, T_SEQUENCE_END};
use varint::LAST_BYTE;

// What is behind a varint; none where it is longer than needed, or not whole. Passing's loop to a varint's end takes longer ones too: one
// loop for both would take a flag.
#[inline(always)]
pub fn number_at(t: &[u8]) -> Option<&[u8]>
    ensures { IfSome result (λ r. Ends t.now Number r.now) }
{
    for (k, &b) in t.iter().enumerate() {
        if k == LAST_BYTE as usize {
            return if b == 1 { Some(&t[k + 1..]) } else { None };
        }
        if b < 128 {
            return if b == 0 && 0 < k {
                None
            } else {
                Some(&t[k + 1..])
            };
        }
    }
    None
}

// The same, out of line.
#[inline(never)]
pub fn long_number_at(t: &[u8]) -> Option<&[u8]>
    ensures { IfSome result (λ r. Ends t.now Number r.now) }
{
    number_at(t)
}

// How many bytes a float has whose word, its length × 8 + subtype, this is.
pub fn float_bytes(word: u64) -> Option<u64>
    ensures float { IfSome result (FloatWord word) }
    ensures each { (w : Width) → word ≡ bytes_of w * 8 + subtype_number (float w) → result ≡ Some (bytes_of w) }
{
    match word {
        FP32_WORD => Some(4),
        FP64_WORD => Some(8),
        _ => None,
    }
}

// Whether a header is the one that a close has in a plain copy, with id 0.
pub fn is_close(h: u64) -> bool
    ensures { result ≡ eqb h (0 * 8 + wire_number t_end) }
{
    h == u64::from(T_SEQUENCE_END)
}
