// Prints the event lists of the messages on standard input, one after another. README.md says how they and the lists were made.
// A read or a write that fails ends it with that error.
//
// A record: the lengths of the message's two chunks, a byte each, and their bytes.
#![tactic(auto)]

use last_line::put_verdict;
use listing::{Listing, Outlet, list};
use std::io::{self, Read};
use streams::read_full;

// Standard output, and whether it has taken all: after a write that failed there is no other.
#[derive(Drop)]
struct Output<'a, P> {
    rt: &'a P,
    sent: io::Result<()>,
}

impl<P: Print> Outlet for Output<'_, P> {
    fn send(&mut self, text: &[u8]) {
        if self.sent.is_ok() {
            self.sent = self.rt.write_all(text);
        }
    }
}

// The list of a message, the verdict behind it.
fn print(rt: &impl Print, chunks: [&[u8]; 2], out: &mut [u8]) -> io::Result<()> {
    let mut output = Output { rt, sent: Ok(()) };
    let mut l = Listing::new();
    for chunk in chunks {
        l = list(l, chunk, out, &mut output);
    }
    output.sent?;
    let end = put_verdict(out, l.at, l.verdict);
    rt.write_all(out.get(..end).unwrap_or_default())
}

// The input's next bytes, and whether there were enough of them.
fn fill(input: &mut impl Read, bytes: &mut [u8]) -> io::Result<bool> {
    Ok(read_full(input, bytes)? == bytes.len())
}

// A message in its two chunks; whether there was one, and then its list is out. One that the input ends within is none.
fn record(input: &mut impl Read, rt: &impl Print, out: &mut [u8]) -> io::Result<bool> {
    let mut lengths = [0u8; 2];
    if !fill(input, &mut lengths)? {
        return Ok(false);
    }
    let [first, second] = lengths;
    // Fixed memory, as much as a length of a byte can ask for.
    let mut a = [0u8; 255];
    let mut b = [0u8; 255];
    let a = &mut a[..usize::from(first)];
    let b = &mut b[..usize::from(second)];
    if !fill(input, a)? || !fill(input, b)? {
        return Ok(false);
    }
    print(rt, [a, b], out)?;
    Ok(true)
}

// Record by record, each list printed before the next is read. (No `loop`: no Read says that it ends. So the records are counted, up to a
// number that no run uses up.)
fn main(rt: HostRuntime) -> io::Result<()> {
    let mut input = rt.stdin();
    // Fixed memory, with room for the lines of any record.
    let mut out = [0u8; 65536];
    for _ in 0..u64::MAX {
        if !record(&mut input, &rt, &mut out)? {
            break;
        }
    }
    Ok(())
}
