// The reader and the gatherer, driven over a slice.
use event::Event;
use istream::{Answer, IStream};
use payload::PayloadAcc;

fn plus(digest: u64, id: u32, n: u64) -> u64 {
    digest.wrapping_add(u64::from(id)).wrapping_add(n)
}

fn size(from: usize, to: usize) -> u64 {
    to.saturating_sub(from) as u64
}

fn sum(digest: u64, e: Event) -> u64 {
    match e {
        Event::Unsigned(id, v) => plus(digest, id, v),
        Event::Signed(id, v) => plus(digest, id, if v < 0 { 1 } else { 2 }),
        Event::Fp32(id, x) => plus(digest, id, 3),
        Event::Fp32Nan(id, n) => plus(digest, id, 3),
        Event::Fp64(id, x) => plus(digest, id, 4),
        Event::Fp64Nan(id, n) => plus(digest, id, 4),
        Event::Str(id, b) => plus(digest, id, size(b.from, b.to)),
        Event::Blob(id, b) => plus(digest, id, size(b.from, b.to)),
        Event::Fixlen(id, t, n) => plus(digest, id, n as u64),
        Event::Array(id, k, n) => plus(digest, id, n as u64),
        Event::Begin(id) => plus(digest, id, 5),
        Event::End => plus(digest, 0, 6),
    }
}

// Each chunk is called on until it is spent and the verdict comes. With a `loop`, which proves as `tour`'s does, a blob in 64-byte
// chunks took 1.39 times as long, arrays 1.26.
pub fn chunks(bytes: &[u8], size: usize) -> u64 {
    let mut stream = IStream::new();
    let mut digest: u64 = 0;
    for chunk in bytes.chunks(size.max(1)) {
        let mut left = chunk;
        for _ in 0..u64::MAX {
            let f = stream.feed(left);
            stream = f.stream;
            let Ok(Answer::Event(e)) = f.answer else {
                break;
            };
            let Some(rest) = left.get(f.read..) else {
                break;
            };
            left = rest;
            digest = sum(digest, e);
        }
    }
    digest
}

// By places: over `chunks`, pieces of 16 bytes took 1.3 to 1.38 times as long. (C gets a number: 0 where no payload is whole.)
pub fn gather(bytes: &[u8], size: usize, buf: &mut [u8]) -> u64 {
    let mut acc = PayloadAcc::new();
    let mut at: usize = 0;
    for _ in 0..bytes.len() {
        let rest = bytes.get(at..).unwrap_or_default();
        if rest.is_empty() {
            break;
        }
        acc = acc
            .feed(buf, bytes.len(), at, rest.get(..size).unwrap_or(rest))
            .acc;
        at = at.saturating_add(size);
    }
    if acc.complete {
        acc.buffered() as u64
    } else {
        0
    }
}
