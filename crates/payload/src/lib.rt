// Reassembly of a string or blob that arrives in pieces: the Rust's payload.rs, over a buffer that each call is lent.
// `feed` takes a piece and says whether the payload is whole; `payload` then returns it, as a part of the chunk or of the buffer.
#![tactic(auto)]

ghost use Rattle.std.specs.Prelude.{◌≡◌, false, ◌+◌, ◌≤◌, length};
ghost use Rattle.std.proofs.Math.Seq.{paste};
ghost use Rattle.gathering.specs.Gather.{fresh, begun, owed, holds_whole, accepted, copied, gathered, first_of, part_of};
ghost use Rattle.payload.specs.Words.{state_of, said_of, result_of};

use types::Error;

// How much of the current payload the lent buffer holds, and whether that payload was already whole: the state that 01 names, a length and
// a flag, each free of the other.
#[derive(Clone, Copy)]
pub struct PayloadAcc {
    pub len: usize,
    pub complete: bool,
}

// Where a whole payload is: the first so many bytes of the chunk or of the buffer.
#[derive(Clone, Copy)]
pub enum Whole {
    InChunk(usize),
    InBuffer(usize),
}

// What `feed` says of a piece that it doesn't refuse: nothing yet, or the payload.
#[derive(Clone, Copy)]
pub struct Fed {
    pub answer: Result<Option<Whole>, Error>,
    pub acc: PayloadAcc,
}

// The first n bytes of src into buf, from pos on. (n beside src, as the definitions have it: with src cut to n, `append` would take a lemma
// more, that what is pasted is the same.)
fn copy_in(buf: &mut [u8], pos: usize, src: &[u8], n: usize)
    requires { (pos + n ≤ length buf.old) × (n ≤ length src.now) }
    ensures { buf.new ≡ paste buf.old pos src.now n }
{
    // Byte by byte: `copy_from_slice` took 1.1 times as long on pieces of 16 bytes.
    for k in 0..n {
        buf[pos + k] = src[k];
    }
}

// How many bytes of a chunk the payload still owes.
fn owing(held: usize, total: usize, given: usize) -> usize
    ensures { result ≡ owed held total given }
{
    total.saturating_sub(held).min(given)
}

// Whether a chunk of so many bytes holds the whole payload.
fn holds_whole(total: usize, offset: usize, given: usize) -> bool
    ensures { result ≡ holds_whole total offset given }
{
    offset == 0 && total <= given
}

// The first n bytes, or none.
fn first(s: &[u8], n: usize) -> &[u8]
    ensures { result.now ≡ first_of s.now n }
{
    s.get(..n).unwrap_or_default()
}

impl PayloadAcc {
    pub fn new() -> PayloadAcc
        ensures { state_of result ≡ fresh }
    {
        PayloadAcc {
            len: 0,
            complete: false,
        }
    }

    // A payload always starts at offset 0, and what is still held of another is forgotten there.
    fn begin(self, offset: usize) -> PayloadAcc
        ensures { state_of result ≡ begun (state_of self) offset }
    {
        if offset == 0 { PayloadAcc::new() } else { self }
    }

    // The next bytes of the payload held, and no more than it owes.
    #[tactic(auto, using(gathering::proofs::Cases::partial, gathering::proofs::Cases::filled))]
    #[inline(always)]
    fn append(mut self, buf: &mut [u8], total: usize, chunk: &[u8]) -> Fed
        requires { (self.len ≤ length buf.old) × (total ≤ length buf.old) × (self.complete ≡ false) }
        ensures { result_of result buf.new ≡ copied (state_of self) buf.old total chunk.now }
    {
        let held = self.len;
        let n = owing(held, total, chunk.len());
        copy_in(buf, held, chunk, n);
        let len = held + n;
        self.len = len;
        if len < total {
            return Fed {
                answer: Ok(None),
                acc: self,
            };
        }
        self.complete = true;
        Fed {
            answer: Ok(Some(Whole::InBuffer(total))),
            acc: self,
        }
    }

    // The order of the tests is 01's: a payload already whole, number 4, whole in the chunk, another offset than the length held.
    #[tactic(auto, using(gathering::proofs::Cases::over_already, gathering::proofs::Cases::too_long, gathering::proofs::Cases::whole_chunk, gathering::proofs::Cases::elsewhere, gathering::proofs::Cases::next))]
    #[inline(always)]
    fn accept(mut self, buf: &mut [u8], total: usize, offset: usize, chunk: &[u8]) -> Fed
        requires { self.len ≤ length buf.old }
        ensures { result_of result buf.new ≡ accepted (state_of self) buf.old total offset chunk.now }
    {
        if self.complete {
            return Fed {
                answer: Ok(None),
                acc: self,
            };
        }
        if buf.len() < total {
            return Fed {
                answer: Err(Error::PayloadTooLong),
                acc: self,
            };
        }
        if holds_whole(total, offset, chunk.len()) {
            self.len = 0;
            self.complete = true;
            return Fed {
                answer: Ok(Some(Whole::InChunk(total))),
                acc: self,
            };
        }
        if offset != self.len {
            return Fed {
                answer: Ok(None),
                acc: self,
            };
        }
        self.append(buf, total, chunk)
    }

    // Takes one piece of a payload of `total` bytes: the chunk, which starts at `offset` in it.
    #[tactic(auto, using(gathering::proofs::Cases::unsound, gathering::proofs::Cases::in_order))]
    pub fn feed(self, buf: &mut [u8], total: usize, offset: usize, chunk: &[u8]) -> Fed
        ensures { result_of result buf.new ≡ gathered (state_of self) buf.old total offset chunk.now }
    {
        // Rebuilt from its fields: a whole copy took a fifth longer on short pieces.
        let held = PayloadAcc {
            len: self.len,
            complete: self.complete,
        };
        if buf.len() < held.len {
            return Fed {
                answer: Err(Error::UnsoundGatherer),
                acc: held,
            };
        }
        let acc = held.begin(offset);
        acc.accept(buf, total, offset, chunk)
    }

    // Drops a payload that is not whole. Rarely needed: the next one's first piece does the same.
    pub fn reset(self) -> PayloadAcc
        ensures { state_of result ≡ fresh }
    {
        PayloadAcc::new()
    }

    // How many bytes the buffer holds of the payload, which is the offset that its next piece must have.
    pub fn buffered(self) -> usize
        ensures { result ≡ self.len }
    {
        self.len
    }

    // The longest payload that a lent buffer can gather.
    pub fn capacity(buf: &[u8]) -> usize
        ensures { result ≡ length buf.now }
    {
        buf.len()
    }
}

// The payload that an answer of `feed` calls whole, given the state and the slices that this call left: a part of one of them. Empty where
// the answer isn't whole, the state isn't sound or the slice lent is too short: 01 asks for an empty part, so it is no Option.
pub fn payload<'a>(
    answer: Result<Option<Whole>, Error>,
    acc: PayloadAcc,
    buf: &'a [u8],
    chunk: &'a [u8],
) -> &'a [u8]
    ensures { result.now ≡ part_of (said_of answer) (state_of acc) buf.now chunk.now }
{
    if buf.len() < acc.len {
        return &buf[..0];
    }
    match answer {
        Ok(Some(Whole::InChunk(n))) => first(chunk, n),
        Ok(Some(Whole::InBuffer(n))) => first(buf, n),
        Ok(None) | Err(_) => &buf[..0],
    }
}
