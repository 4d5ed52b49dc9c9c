// Shared types and wire constants: the Rust's types.rs, the configuration of its lib.rs, and the refusals by their numbers.
#![tactic(auto)]

ghost use Rattle.std.specs.Prelude.{◌≡◌};
ghost use Rattle.layout.specs.Field.{bytes_of, floats, subtype_of};
ghost use Rattle.types.specs.Types.{subtyped, fixlen_raw, kind_raw, number_of, width, float_fixlen, raw_fixlen_type, array_kind};

// SofaBuffers wire and API version that this library implements.
pub const API_VERSION: u32 = 1;

// Largest field id. (No type of ids: a caller may make a state of any numbers (01), so each id would be tested and made where one comes
// in.)
pub const ID_MAX: u32 = 2147483647;

// Deepest nesting of sequences.
pub const MAX_DEPTH: u32 = 255;

// Most elements of an array.
pub const ARRAY_MAX: u32 = 2147483647;

// Most bytes of a string or blob: the Rust's ARRAY_MAX serves both.
pub const FIXLEN_MAX: u32 = 2147483647;

// How many opened sequences a writer holds back at once.
pub const LAZY_SEQ_DEPTH: usize = 8;

// Fewest free bytes of a buffer that is to be drained.
pub const MIN_OUTPUT_BUFFER: usize = 1;

// Width of a value in bits.
pub const VALUE_BITS: u32 = 64;

// Every wire construct is present in this build.
pub const FIXLEN: bool = true;

pub const ARRAY: bool = true;

pub const SEQUENCE: bool = true;

pub const FP64: bool = true;

// The type in a header's low three bits. Code hands it on as the wire's number and matches it by these names: an enum of the eight would
// need a conversion, with a proof of its own, at each of these places, and be no plainer.
pub const T_VARINT_UNSIGNED: u8 = 0;

pub const T_VARINT_SIGNED: u8 = 1;

pub const T_FIXLEN: u8 = 2;

pub const T_VARINTARRAY_UNSIGNED: u8 = 3;

pub const T_VARINTARRAY_SIGNED: u8 = 4;

pub const T_FIXLENARRAY: u8 = 5;

pub const T_SEQUENCE_START: u8 = 6;

pub const T_SEQUENCE_END: u8 = 7;

// The words of the two floats: length × 8 + subtype.
pub const FP32_WORD: u64 = 32;

pub const FP64_WORD: u64 = 65;

// Subtype of a fixed-length field, the number in its word's low three bits.
#[derive(Clone, Copy, Debug, PartialEq, Eq)]
pub enum FixlenType {
    Fp32 = 0,
    Fp64 = 1,
    Str = 2,
    Blob = 3,
}

// Element type of an array, by its number in an event list.
#[derive(Clone, Copy, Debug, PartialEq, Eq)]
pub enum ArrayKind {
    Unsigned = 0,
    Signed = 1,
    Fp32 = 2,
    Fp64 = 3,
}

// The subtypes that are floats.
#[derive(Clone, Copy, Debug, PartialEq, Eq)]
pub enum FloatType {
    Fp32,
    Fp64,
}

// The subtypes whose payload goes as it is.
#[derive(Clone, Copy, Debug, PartialEq, Eq)]
pub enum RawType {
    Str,
    Blob,
}

// A number that no subtype of a fixed-length field has.
#[derive(Clone, Copy, Debug, PartialEq, Eq)]
pub struct UnknownSubtype;

// The refusals by their numbers: 01's, and those of 02 that are built.
#[derive(Clone, Copy, Debug, PartialEq, Eq)]
pub enum Error {
    UnsoundReader = 1,
    InvalidMsg = 2,
    UnsoundGatherer = 3,
    PayloadTooLong = 4,
    BadBuffer = 5,
    UnsoundWriter = 6,
    StringSubtype = 7,
    Nesting = 8,
    IdTooLarge = 9,
    TooLong = 10,
    PlaceBeyond = 11,
    NoBuffer = 18,
}

impl From<FixlenType> for u8 {
    ghost from_gives = { λ t n. n ≡ fixlen_raw t };

    fn from(t: FixlenType) -> u8 {
        t as u8
    }
}

impl TryFrom<u8> for FixlenType {
    type Error = UnknownSubtype;

    ghost try_from_gives = { λ n r. subtype_of n ≡ subtyped r };

    fn try_from(n: u8) -> Result<FixlenType, UnknownSubtype> {
        match n {
            0 => Ok(FixlenType::Fp32),
            1 => Ok(FixlenType::Fp64),
            2 => Ok(FixlenType::Str),
            3 => Ok(FixlenType::Blob),
            _ => Err(UnknownSubtype),
        }
    }
}

// Each number or name that a `From` gives has a method beside it, here and below: a chain of them reads in its order,
// `t.fixlen().raw()`, where `u8::from(FixlenType::from(t))` reads from within.
impl FixlenType {
    pub fn raw(self) -> u8
        ensures { result ≡ fixlen_raw self }
    {
        u8::from(self)
    }
}

impl From<ArrayKind> for u8 {
    ghost from_gives = { λ k n. n ≡ kind_raw k };

    fn from(k: ArrayKind) -> u8 {
        k as u8
    }
}

impl ArrayKind {
    pub fn raw(self) -> u8
        ensures { result ≡ kind_raw self }
    {
        u8::from(self)
    }
}

// Names of one enum as those of another, here and below: each pair has its own, and they are alike in form alone.
impl From<FloatType> for FixlenType {
    ghost from_gives = { λ w t. t ≡ float_fixlen w };

    fn from(w: FloatType) -> FixlenType {
        match w {
            FloatType::Fp32 => FixlenType::Fp32,
            FloatType::Fp64 => FixlenType::Fp64,
        }
    }
}

impl From<FloatType> for ArrayKind {
    ghost from_gives = { λ w k. k ≡ array_kind (floats (width w)) };

    fn from(w: FloatType) -> ArrayKind {
        match w {
            FloatType::Fp32 => ArrayKind::Fp32,
            FloatType::Fp64 => ArrayKind::Fp64,
        }
    }
}

impl FloatType {
    // How many bytes such a float has. As the enum's own numbers these would be no plainer: `w as u8` says nothing of bytes.
    pub fn bytes(self) -> u8
        ensures { result ≡ bytes_of (width self) }
    {
        match self {
            FloatType::Fp32 => 4,
            FloatType::Fp64 => 8,
        }
    }

    pub fn fixlen(self) -> FixlenType
        ensures { result ≡ float_fixlen self }
    {
        FixlenType::from(self)
    }

    pub fn kind(self) -> ArrayKind
        ensures { result ≡ array_kind (floats (width self)) }
    {
        ArrayKind::from(self)
    }
}

impl From<RawType> for FixlenType {
    ghost from_gives = { λ r t. t ≡ raw_fixlen_type r };

    fn from(r: RawType) -> FixlenType {
        match r {
            RawType::Str => FixlenType::Str,
            RawType::Blob => FixlenType::Blob,
        }
    }
}

impl RawType {
    pub fn fixlen(self) -> FixlenType
        ensures { result ≡ raw_fixlen_type self }
    {
        FixlenType::from(self)
    }
}

impl From<Error> for u8 {
    ghost from_gives = { λ e n. n ≡ number_of e };

    fn from(e: Error) -> u8 {
        e as u8
    }
}

impl Error {
    pub fn number(self) -> u8
        ensures { result ≡ number_of self }
    {
        u8::from(self)
    }
}
