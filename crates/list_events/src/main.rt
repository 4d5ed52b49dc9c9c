// Lists the events of the message on standard input, a line each, and last its verdict.
// Where a read or a write fails there is no verdict: the list ends without one, and a line on standard error says why.
#![tactic(auto)]

use last_line::Verdict;
use listing::{Listing, Outlet, list};
use std::io::{self, Read};
use streams::{Failure, unwritten};

const NAME: &[u8] = b"events";

// Standard output, and whether it has taken all: a write that failed is not tried again, nor is another.
#[derive(Drop)]
struct Output<'a, P> {
    rt: &'a P,
    sent: Result<(), Failure>,
}

impl<P: Print> Outlet for Output<'_, P> {
    fn send(&mut self, text: &[u8]) {
        if self.sent.is_ok() {
            let sent = self.rt.write_all(text);
            self.sent = sent.map_err(|e| Failure::Unwritten(e.kind()));
        }
    }
}

// Chunk by chunk to the end of the input; a message found broken is read no further. (Tried as a `loop`: its measure stayed open, since no
// Read says that it ends. So the chunks are counted, up to a number that no run uses up.)
fn list_all(
    input: &mut impl Read,
    rt: &impl Print,
    l: &mut Listing,
    chunk: &mut [u8],
    out: &mut [u8],
) -> Result<(), Failure> {
    for _ in 0..u64::MAX {
        if l.verdict == Verdict::Invalid {
            break;
        }
        let n = input.read(chunk).map_err(|_| Failure::Unread)?;
        if n == 0 {
            break;
        }
        let mut output = Output { rt, sent: Ok(()) };
        *l = list(*l, &chunk[..n], out, &mut output);
        output.sent?;
    }
    Ok(())
}

// The text so far and the last line go out.
fn conclude(rt: &impl Print, l: Listing, out: &[u8]) -> io::Result<()> {
    rt.write_all(l.text(out))?;
    rt.write_all(l.verdict.line())
}

// The text so far goes out also where there is no more to read. A write that failed is not tried again.
fn finish(
    rt: &impl Print,
    err: &impl Print,
    l: Listing,
    listed: Result<(), Failure>,
    out: &[u8],
) -> io::Result<()> {
    let written = match listed {
        Ok(()) => conclude(rt, l, out),
        Err(Failure::Unread) => {
            let flushed = rt.write_all(l.text(out));
            Failure::Unread.say(err, NAME)?;
            flushed
        }
        Err(failure) => return failure.say(err, NAME),
    };
    written.or_else(|e| unwritten(err, NAME, e.kind()))
}

// Fixed memory: a chunk of 4,096 bytes, whose lines fit the text. Only a line that standard error doesn't take ends it with an error of
// its own.
fn main(rt: HostRuntime) -> io::Result<()> {
    let mut chunk = [0u8; 4096];
    let mut out = [0u8; 65536];
    let mut l = Listing::new();
    let listed = list_all(&mut rt.stdin(), &rt, &mut l, &mut chunk, &mut out);
    finish(&rt, &rt.stderr(), l, listed, &out)
}
