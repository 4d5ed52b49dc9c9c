// One call of the writer. Its state are the desk's words 7 to 17: position, depth, how many ids are held, and their eight places. A call
// finds its number at 24, its id at 25, a kind at 26, a value at 27, an offset at 28 and the place to go on from at 31, and tells its
// answer at 23 and 24.
use desk::calls::WriterCall;
use desk::{lay, narrow, short, word};
use event::Event;
use ostream::{Answer, Counted, OStream, Written};
use types::{Error, FixlenType};

// The eight places: a writer's, in fixed memory.
fn places(desk: &[u64]) -> [u32; 8] {
    let mut places = [0u32; 8];
    for (place, n) in places.iter_mut().zip(desk.iter().skip(10)) {
        *place = narrow(*n);
    }
    places
}

pub fn writer(desk: &[u64]) -> OStream {
    OStream {
        offset: word(desk, 7) as usize,
        pending: places(desk),
        depth: short(word(desk, 8)),
        npending: short(word(desk, 9)),
    }
}

pub fn store(s: OStream, desk: &mut [u64]) {
    lay(
        desk,
        7,
        &[s.offset as u64, s.depth as u64, s.npending as u64],
    );
    lay(desk, 10, &s.pending.map(u64::from));
}

// A call's numbers, as the desk has them, which C and the Rust read too (compare/PROTOCOL.md).
#[derive(Clone, Copy)]
pub struct Call {
    pub writer: OStream,
    pub id: u32,
    pub kind: u64,
    pub value: u64,
    pub offset: usize,
    pub place: usize,
}

pub fn asked(desk: &[u64]) -> Call {
    Call {
        writer: writer(desk),
        id: narrow(word(desk, 25)),
        kind: word(desk, 26),
        value: word(desk, 27),
        offset: word(desk, 28) as usize,
        place: word(desk, 31) as usize,
    }
}

// ---- what a call tells, by the protocol's numbers

fn refused(e: Error) -> [u64; 2] {
    [3, e.number() as u64]
}

pub fn counted(c: Result<usize, Error>) -> [u64; 2] {
    match c {
        Ok(n) => [4, n as u64],
        Err(e) => refused(e),
    }
}

// What a call leaves on the desk: the writer, and the answer.
pub fn told(w: Written, desk: &mut [u64]) {
    let answer = match w.answer {
        Ok(Answer::Done) => [0, 0],
        Ok(Answer::Full(n)) => [1, n as u64],
        Err(e) => refused(e),
    };
    store(w.stream, desk);
    lay(desk, 23, &answer);
}

// (The copier's stores a reader too, which is half of each.)
fn sent(c: Counted, desk: &mut [u64]) {
    store(c.stream, desk);
    lay(desk, 23, &counted(c.answer));
}

// ---- the calls by number

// A number of no subtype is a blob's.
fn subtype(n: u64) -> FixlenType {
    let known = u8::try_from(n)
        .ok()
        .and_then(|n| FixlenType::try_from(n).ok());
    known.unwrap_or(FixlenType::Blob)
}

// Floats go by the calls for floats, and where one is a NaN, whose bits no float carries, by those for bits. (One each: a function for both
// would take the event's case and both calls as closures.)
fn fp32(c: Call, buf: &mut [u8]) -> Written {
    let bits = narrow(c.value);
    match event::fp32(c.id, bits) {
        Event::Fp32(_, x) => c.writer.write_fp32(buf, c.id, x, c.place),
        _ => c.writer.write_fp32_bits(buf, c.id, bits, c.place),
    }
}

fn fp64(c: Call, buf: &mut [u8]) -> Written {
    match event::fp64(c.id, c.value) {
        Event::Fp64(_, x) => c.writer.write_fp64(buf, c.id, x, c.place),
        _ => c.writer.write_fp64_bits(buf, c.id, c.value, c.place),
    }
}

// Kind 1 opens a writer that is drained: the protocol's number.
fn open(c: Call, buf: &[u8]) -> Written {
    if c.kind == 0 {
        OStream::with_offset(buf, c.offset)
    } else {
        OStream::with_flush(buf, c.offset)
    }
}

// Of a buffer change `data` is the new buffer, and kind 1 says that the writer is drained: the protocol's number.
fn made(call: WriterCall, c: Call, data: &[u8], buf: &mut [u8], desk: &mut [u64]) {
    let w = c.writer;
    let written = match call {
        WriterCall::Flush => return sent(w.flush(buf), desk),
        WriterCall::BufferSet => {
            return sent(w.buffer_set(buf, data, c.offset, c.kind != 0), desk);
        }
        WriterCall::Open => open(c, buf),
        WriterCall::Unsigned => w.write_unsigned(buf, c.id, c.value, c.place),
        WriterCall::Signed => w.write_signed(buf, c.id, c.value.cast_signed(), c.place),
        WriterCall::Boolean => w.write_boolean(buf, c.id, c.value != 0, c.place),
        WriterCall::Fixlen => w.write_fixlen(buf, c.id, data, subtype(c.kind), c.place),
        WriterCall::Fp32 => fp32(c, buf),
        WriterCall::Fp64 => fp64(c, buf),
        WriterCall::Str => w.write_str(buf, c.id, data, c.place),
        WriterCall::Blob => w.write_blob(buf, c.id, data, c.place),
        WriterCall::Begin => w.write_sequence_begin_lazy(buf, c.id, c.place),
        WriterCall::End => w.write_sequence_end(buf, c.place),
        WriterCall::EndKeep => w.write_sequence_end_keep(buf, c.place),
    };
    told(written, desk);
}

// A number of no call writes a float of 64 bits.
pub fn trace_write(desk: &mut [u64], data: &[u8], buf: &mut [u8]) {
    let call = WriterCall::try_from(word(desk, 24)).unwrap_or(WriterCall::Fp64);
    made(call, asked(desk), data, buf, desk);
}
