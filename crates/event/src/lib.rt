// The reader's events: one value that carries its number, float or piece bounds. The Rust hands each to a callback of its `Visitor`.
// A float that is a NaN has no bits in the logic, so NaN patterns have cases of their own, which carry the bits.
#![tactic(auto)]

ghost use Rattle.std.specs.Prelude.{◌≡◌, ◌^◌, ◌<◌};
ghost use Rattle.std.specs.Float.{binary32, binary64};
ghost use Rattle.std.specs.Float.Ieee.{to_bits};
ghost use Rattle.layout.specs.Field.{bytes_of};
ghost use Rattle.layout.specs.Event.{Float};
ghost use Rattle.types.specs.Types.{width};
ghost use Rattle.event.specs.Event.{fp32_of, fp64_of, declared, piece_in};

use types::{ArrayKind, FixlenType, FloatType, RawType};

// A piece of a payload: the payload's length, the piece's place in it, and the piece's bounds in the chunk lent. Bounds and no slice: 01
// has an event as one value that carries its piece's bounds, and lends nothing of the chunk.
#[derive(Clone, Copy)]
pub struct Bounds {
    pub total: u32,
    pub offset: u32,
    pub from: usize,
    pub to: usize,
}

// Each case is something that a message has: `End` closes a sequence, and is no missing value that an Option would tell more plainly.
#[derive(Clone, Copy)]
pub enum Event {
    Unsigned(u32, u64),
    Signed(u32, i64),
    Fp32(u32, f32),
    Fp32Nan(u32, u32),
    Fp64(u32, f64),
    Fp64Nan(u32, u64),
    Str(u32, Bounds),
    Blob(u32, Bounds),
    Fixlen(u32, FixlenType, u32),
    Array(u32, ArrayKind, u32),
    Begin(u32),
    End,
}

// A float by its bits. The two widths stand side by side, here and in the bits below: a trait over them would have a member for each line.
pub fn fp32(id: u32, bits: u32) -> Event
    ensures { result ≡ fp32_of id bits }
{
    if 0x7f80_0000 < bits % 0x8000_0000 {
        Event::Fp32Nan(id, bits)
    } else {
        Event::Fp32(id, f32::from_bits(bits))
    }
}

pub fn fp64(id: u32, bits: u64) -> Event
    ensures { result ≡ fp64_of id bits }
{
    if 0x7ff0_0000_0000_0000 < bits % 0x8000_0000_0000_0000 {
        Event::Fp64Nan(id, bits)
    } else {
        Event::Fp64(id, f64::from_bits(bits))
    }
}

// The bits of a float; those of a NaN are 0x7fc0_0000.
pub fn fp32_bits(x: f32) -> u32
    ensures { result ≡ to_bits binary32 x }
{
    if x.is_nan() { 0x7fc0_0000 } else { x.to_bits() }
}

// The bits of a float; those of a NaN are 0x7ff8_0000_0000_0000.
pub fn fp64_bits(x: f64) -> u64
    ensures { result ≡ to_bits binary64 x }
{
    if x.is_nan() {
        0x7ff8_0000_0000_0000
    } else {
        x.to_bits()
    }
}

// A float is whole, x being its bits, which go to the function of their width. Only `step` calls this, with the bits of as many bytes as
// the float has. (No From: each width is a call of its own, and a `from` could ask nothing of x.)
pub fn float_event(id: u32, w: FloatType, x: u64) -> Event
    requires { x < 256 ^ bytes_of (width w) }
    ensures { result ≡ declared 0 (Float id (width w) x) }
{
    match w {
        FloatType::Fp32 => fp32(id, x as u32),
        FloatType::Fp64 => fp64(id, x),
    }
}

// A piece of a payload, which begins at the chunk's first byte. The payload's four numbers come one by one, as the
// phase has them; as a struct there, a blob in chunks took 1.4 times as long.
pub fn piece(id: u32, r: RawType, total: u32, offset: u32, len: usize) -> Event
    ensures { result ≡ piece_in id r total offset len }
{
    let bounds = Bounds {
        total,
        offset,
        from: 0,
        to: len,
    };
    match r {
        RawType::Str => Event::Str(id, bounds),
        RawType::Blob => Event::Blob(id, bounds),
    }
}
