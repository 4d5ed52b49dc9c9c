// The gatherer's two calls. Its state are the desk's words 0 and 1: the length held, and whether the payload is whole.
use desk::{lay, word};
use emit::put_rest;
use payload::{PayloadAcc, Whole};
use types::Error;

fn acc(desk: &[u64]) -> PayloadAcc {
    PayloadAcc {
        len: word(desk, 0) as usize,
        complete: word(desk, 1) != 0,
    }
}

// What a call tells, the desk's words 23 and 24 by the protocol's numbers, and its way back. (Of a refusal the part is empty,
// whichever it is.)
fn told(a: Result<Option<Whole>, Error>) -> [u64; 2] {
    match a {
        Ok(None) => [0, 0],
        Ok(Some(Whole::InChunk(n))) => [1, n as u64],
        Ok(Some(Whole::InBuffer(n))) => [2, n as u64],
        Err(e) => [3, e.number() as u64],
    }
}

fn said(desk: &[u64]) -> Result<Option<Whole>, Error> {
    let n = word(desk, 24) as usize;
    match word(desk, 23) {
        1 => Ok(Some(Whole::InChunk(n))),
        2 => Ok(Some(Whole::InBuffer(n))),
        3 => Err(Error::PayloadTooLong),
        _ => Ok(None),
    }
}

fn leave(left: PayloadAcc, told: [u64; 2], desk: &mut [u64]) {
    lay(desk, 0, &[left.buffered() as u64, u64::from(left.complete)]);
    lay(desk, 23, &told);
}

// A piece: word 27 is its total, word 28 its offset. Where word 31 isn't 0, which is the protocol's, a reset.
pub fn trace_gather(desk: &mut [u64], buf: &mut [u8], chunk: &[u8]) {
    let held = acc(desk);
    if word(desk, 31) != 0 {
        return leave(held.reset(), [4, 0], desk);
    }
    let f = held.feed(buf, word(desk, 27) as usize, word(desk, 28) as usize, chunk);
    leave(f.acc, told(f.answer), desk);
}

// The second call, on the answer that words 23 and 24 tell: the part goes out, as far as there is room; answers how long it is there.
pub fn trace_part(desk: &[u64], buf: &[u8], chunk: &[u8], out: &mut [u8]) -> usize {
    put_rest(
        out,
        0,
        payload::payload(said(desk), acc(desk), buf, chunk),
        0,
    )
}
