// One call of the copier. Its state are the reader's words and the writer's, then at 18 to 22 what is owed: its number, an id, a kind, a
// value, and the place reached in it. A call finds its number at 24 and an offset at 28, tells its answer at 23, the bytes used or to be
// sent at 24, and a refusal's number at 27 (of drain and change at 24).
use copier::{Answer, Answered, Copied, Copier};
use desk::calls::CopierCall;
use desk::{byte, lay, narrow, word};
use owed::Owed;
use trace::reader::{float_type, raw_type, reader, verdict};
use trace_writer::writer::{counted, writer};
use types::ArrayKind;

// By its number in the protocol, as what is owed below.
fn array_kind(n: u64) -> ArrayKind {
    match n {
        0 => ArrayKind::Unsigned,
        1 => ArrayKind::Signed,
        2 => ArrayKind::Fp32,
        _ => ArrayKind::Fp64,
    }
}

fn owed(desk: &[u64]) -> Owed {
    let id = narrow(word(desk, 19));
    let kind = word(desk, 20);
    let value = word(desk, 21);
    match word(desk, 18) {
        0 => Owed::Nothing,
        1 => Owed::Unsigned(id, value),
        2 => Owed::Signed(id, value.cast_signed()),
        3 => Owed::Element(value),
        4 => Owed::SignedElement(value.cast_signed()),
        5 => Owed::Fp32(narrow(value)),
        6 => Owed::Fp64(value),
        7 => Owed::Float(id, float_type(kind)),
        8 => Owed::Payload(id, raw_type(kind), narrow(value)),
        9 => Owed::Array(id, array_kind(kind), narrow(value)),
        10 => Owed::Begin(id),
        _ => Owed::End,
    }
}

fn copier(desk: &[u64]) -> Copier {
    Copier {
        reader: reader(desk),
        writer: writer(desk),
        owed: owed(desk),
        place: byte(word(desk, 22)),
    }
}

// The words 18 to 22, numbers as the desk has them (compare/PROTOCOL.md).
fn of(owed: u64, id: u32, kind: u8, value: u64, place: u8) -> [u64; 5] {
    [owed, id as u64, kind as u64, value, place as u64]
}

fn numbers(o: Owed, place: u8) -> [u64; 5] {
    match o {
        Owed::Nothing => of(0, 0, 0, 0, place),
        Owed::Unsigned(id, v) => of(1, id, 0, v, place),
        Owed::Signed(id, v) => of(2, id, 0, v.cast_unsigned(), place),
        Owed::Element(v) => of(3, 0, 0, v, place),
        Owed::SignedElement(v) => of(4, 0, 0, v.cast_unsigned(), place),
        Owed::Fp32(n) => of(5, 0, 0, n as u64, place),
        Owed::Fp64(n) => of(6, 0, 0, n, place),
        Owed::Float(id, t) => of(7, id, t.fixlen().raw(), 0, place),
        Owed::Payload(id, r, n) => of(8, id, r.fixlen().raw(), n as u64, place),
        Owed::Array(id, k, n) => of(9, id, k.raw(), n as u64, place),
        Owed::Begin(id) => of(10, id, 0, 0, place),
        Owed::End => of(11, 0, 0, 0, place),
    }
}

fn store(k: Copier, desk: &mut [u64]) {
    trace::reader::store(k.reader, desk);
    trace_writer::writer::store(k.writer, desk);
    lay(desk, 18, &numbers(k.owed, k.place));
}

// ---- what a call leaves: the copier, and the words 23 to 27, by the protocol's numbers

fn opened(o: Answered<()>, desk: &mut [u64]) {
    let told = match o.answer {
        Ok(()) => [0u64; 5],
        Err(e) => [3, 0, 0, 0, e.number() as u64],
    };
    store(o.copier, desk);
    lay(desk, 23, &told);
}

fn copied(f: Copied, desk: &mut [u64]) {
    let used = f.used as u64;
    let told = match f.answer {
        Ok(Answer::Full) => [1, used, 0, 0, 0],
        Ok(Answer::Status(s)) => [verdict(s), used, 0, 0, 0],
        Err(e) => [18, used, 0, 0, e.number() as u64],
    };
    store(f.copier, desk);
    lay(desk, 23, &told);
}

// The words 25 to 27 stay as they are. (Its namesake of `trace_writer` stores the writer alone, which is half of each.)
fn sent(d: Answered<usize>, desk: &mut [u64]) {
    store(d.copier, desk);
    lay(desk, 23, &counted(d.answer));
}

// Of a buffer change `data` is the new buffer. A number of no call is a buffer change's.
pub fn trace_copy(desk: &mut [u64], data: &[u8], buf: &mut [u8]) {
    let call = CopierCall::try_from(word(desk, 24)).unwrap_or(CopierCall::BufferSet);
    let k = copier(desk);
    let offset = word(desk, 28) as usize;
    match call {
        CopierCall::Open => opened(Copier::new(buf, offset), desk),
        CopierCall::Feed => copied(k.feed(data, buf), desk),
        CopierCall::Flush => sent(k.flush(buf), desk),
        CopierCall::BufferSet => sent(k.buffer_set(buf, data, offset), desk),
    }
}
