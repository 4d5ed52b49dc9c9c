// Base-128 varints and zigzag: the Rust's varint.rs, with the step of the decoder (`Core::push` and `payload_at` of its istream.rs).
// The step takes its state by value, so a varint may be cut anywhere between two bytes.
#![tactic(auto)]

ghost use Rattle.std.specs.Prelude.{◌≡◌, ◌+◌, ◌*◌, ◌%◌, ◌<◌, ◌≤◌, length};
ghost use Rattle.layout.specs.Limits.{base};
ghost use Rattle.layout.specs.Varint.{digit, shortest};
ghost use Rattle.layout.specs.Zigzag.{zigzag, unzigzag};
ghost use Rattle.varint.specs.Varint.{sound_acc, start, pushed};

// Most bytes of a varint, and the place of the last of them, counted from 0.
pub const VARINT_MAX: usize = 10;

pub const LAST_BYTE: u8 = 9;

// A varint under way: how many bytes it had, and what they came to.
#[derive(Clone, Copy)]
pub struct Acc {
    pub value: u64,
    pub taken: u8,
}

// What one more byte makes of it. No Option or Result: each of the three is an answer that a step gives.
#[derive(Clone, Copy)]
pub enum Push {
    More(Acc),
    Value(u64),
    Overlong,
}

// The seven payload bits of b, moved to place k.
fn payload_at(b: u8, k: u8) -> u64
    requires { k ≤ 8 }
    ensures { result ≡ digit k b }
{
    u64::from(b & 0x7f) << (k * 7)
}

impl Acc {
    pub fn new() -> Acc
        ensures { result ≡ start }
    {
        Acc { value: 0, taken: 0 }
    }

    // Whether such bytes can have come before.
    pub fn sound(self) -> bool
        ensures { result ≡ sound_acc base self }
    {
        self.taken <= LAST_BYTE && self.value >> (self.taken * 7) == 0
    }

    // Every way past 64 bits lies at the tenth byte: bit 7 set, or a payload above 1. No state is tested: one that no bytes can have made
    // has an answer too.
    pub fn push(self, b: u8) -> Push
        ensures { result ≡ pushed base self b }
    {
        let Acc { value, taken } = self;
        if taken < LAST_BYTE {
            let value = value | payload_at(b, taken);
            if b < 128 {
                Push::Value(value)
            } else {
                Push::More(Acc {
                    value,
                    taken: taken + 1,
                })
            }
        } else if 1 < b {
            Push::Overlong
        } else {
            Push::Value(value | u64::from(b) << 63)
        }
    }
}

// Doubling wraps, so that the lowest value is no special case; below 0 every bit is flipped.
pub fn zigzag_encode(v: i64) -> u64
    ensures { result ≡ zigzag v }
{
    let bits = v.cast_unsigned();
    let doubled = bits.wrapping_add(bits);
    if v < 0 { !doubled } else { doubled }
}

pub fn zigzag_decode(u: u64) -> i64
    ensures { result ≡ unzigzag u }
{
    let half = (u >> 1).cast_signed();
    if u % 2 == 0 { half } else { !half }
}

// How many bytes the shortest varint of v has: 7 bits a byte, and 0 has one byte as 1 has.
pub fn varint_len(v: u64) -> usize
    ensures { result ≡ length (shortest v) }
{
    let zeros = (v | 1).leading_zeros();
    ((70 - zeros) / 7) as usize
}

// The same, sooner where the value has 7 bits or 14, as most have: for loops over many of them. (By leading zeros alone, arrays written
// into one byte took 1.56 and 1.64 times as long as by the loop before; so, 0.95.)
pub fn width(v: u64) -> usize
    ensures { result ≡ length (shortest v) }
{
    match v {
        0..128 => 1,
        128..16384 => 2,
        _ => varint_len(v),
    }
}
