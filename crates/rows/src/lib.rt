// The words of a script's row: the call that it names, what it sets on the desk, and whether a call left what it says. The README.md of the
// crate `vectors` says what a row has.
#![tactic(auto)]

ghost use Rattle.std.specs.Prelude.{◌≡◌, ◌<◌, ◌≤◌, ⊤, MatchOption, take};

use desk::Desk;
use desk::calls::{ArrayCall, CopierCall, WriterCall};
use script::{after, unhex};

// What a row does: it begins with a fresh desk, lends a buffer, takes a part, or makes a call.
#[derive(Clone, Copy)]
pub enum Row {
    Fresh,
    Buffer,
    Part,
    Call(Call),
}

#[derive(Clone, Copy)]
pub enum Call {
    Write(WriterCall),
    Array(ArrayCall),
    Read,
    Gather,
    Copy(CopierCall),
}

// The bytes of a word in hexadecimal, the first 256 of them, and how many. Fixed memory, so that to take them can't fail; behind them are
// zeros, but for a last digit that has no other.
#[derive(Clone, Copy, PartialEq, Eq)]
pub struct Bytes {
    pub bytes: [u8; 256],
    pub len: usize,
}

impl Bytes {
    pub fn as_slice(&self) -> &[u8]
        ensures { self.now.len ≤ 256 → result.now ≡ take self.now.len self.now.bytes }
    {
        self.bytes.get(..self.len).unwrap_or_default()
    }
}

pub fn bytes_of(hex: &[u8]) -> Bytes {
    let mut bytes = [0u8; 256];
    let len = unhex(hex, &mut bytes);
    Bytes { bytes, len }
}

// What a call finds and leaves: the desk, and the buffer that is lent.
#[derive(Clone, Copy)]
pub struct State {
    pub desk: Desk,
    pub buf: Bytes,
}

// ---- what a row says

// Arrays of floats by value have no call of their own: by their names a float of 64 bits is written. (An Option, no TryFrom, here and
// below: its error would say no more than None.)
fn writer_call(name: &[u8]) -> Option<WriterCall> {
    Some(match name {
        b"unsigned" => WriterCall::Unsigned,
        b"signed" => WriterCall::Signed,
        b"boolean" => WriterCall::Boolean,
        b"fixlen" => WriterCall::Fixlen,
        b"fp32" => WriterCall::Fp32,
        b"fp64" | b"fp32s" | b"fp64s" => WriterCall::Fp64,
        b"str" => WriterCall::Str,
        b"blob" => WriterCall::Blob,
        b"begin" => WriterCall::Begin,
        b"end" => WriterCall::End,
        b"keep" => WriterCall::EndKeep,
        b"flush" => WriterCall::Flush,
        b"set" => WriterCall::BufferSet,
        b"open" => WriterCall::Open,
        _ => return None,
    })
}

fn other_call(name: &[u8]) -> Option<Call> {
    Some(match name {
        b"unsigneds" => Call::Array(ArrayCall::Unsigneds),
        b"signeds" => Call::Array(ArrayCall::Signeds),
        b"fp32_bits" => Call::Array(ArrayCall::Fp32Bits),
        b"fp64_bits" => Call::Array(ArrayCall::Fp64Bits),
        b"read" => Call::Read,
        b"gather" => Call::Gather,
        b"copier" => Call::Copy(CopierCall::Open),
        b"copy" => Call::Copy(CopierCall::Feed),
        b"copied" => Call::Copy(CopierCall::Flush),
        b"copy_set" => Call::Copy(CopierCall::BufferSet),
        _ => return None,
    })
}

// What the row of this name does, if it has one.
pub fn row_named(name: &[u8]) -> Option<Row> {
    match name {
        b"fresh" => Some(Row::Fresh),
        b"buffer" => Some(Row::Buffer),
        b"part" => Some(Row::Part),
        _ => writer_call(name)
            .map(Call::Write)
            .or_else(|| other_call(name))
            .map(Row::Call),
    }
}

// The letters of the desk's words, in the order of compare/PROTOCOL.md.
const LETTERS: [u8; 32] = *b"QRKICTVPDHABEFGJLMONSUWanikvoftp";

// What is no digit counts as 0. (`parse` would refuse it, and a number beyond 64 bits.)
fn digit(b: u8) -> u64 {
    match b {
        b'0'..=b'9' => u64::from(b - b'0'),
        _ => 0,
    }
}

// Of a number beyond 64 bits the low ones; of no digit at all, 0.
fn number(text: &[u8]) -> u64 {
    text.iter()
        .fold(0u64, |n, &b| n.wrapping_mul(10).wrapping_add(digit(b)))
}

// A letter and a number: that letter's word, and what it is. Other words of a row set nothing.
fn setting(word: &[u8]) -> Option<(usize, u64)>
    ensures { MatchOption result ⊤ (λ p. p.0 < 32) }
{
    let (letter, digits) = word.split_first()?;
    let i = LETTERS.iter().position(|l| l == letter)?;
    Some((i, number(digits)))
}

pub fn set(text: &[u8], mut desk: Desk) -> Desk {
    for word in text.split(|b| *b == b' ') {
        if let Some((i, n)) = setting(word) {
            desk[i] = n;
        }
    }
    desk
}

// A row's numbers and its answer are its own: these words begin at zero.
pub fn cleared(mut desk: Desk) -> Desk {
    desk[23..].fill(0);
    desk
}

// ---- what a call left

// Words that a row doesn't name are as they were at the call; with `~`, they are free.
fn unnamed(told: &[u8], before: Desk, after: Desk) -> Desk {
    if told.contains(&b'~') { after } else { before }
}

// The buffer begins with these bytes, and is behind them as it was.
fn same_bytes(start: &[u8], before: &Bytes, after: &Bytes) -> bool {
    let mut want = before.bytes;
    unhex(start, &mut want);
    want == after.bytes
}

// Whether desk and buffer are what the row tells.
pub fn right(told: &[u8], was: &State, is: &State) -> bool {
    let want = set(told, unnamed(told, was.desk, is.desk));
    is.desk == want && same_bytes(after(told, b'>'), &was.buf, &is.buf)
}

// Whether a part is the one that the row tells.
pub fn same_part(told: &[u8], part: Bytes) -> bool {
    bytes_of(after(told, b'>')) == part
}
