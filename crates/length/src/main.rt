// Says how many bytes the copy of the message on standard input has, every field in its shortest form, and writes none of them. Given a
// buffer's length as an argument, it says next to it how many drains that copy costs over it.
// Where the message isn't complete, the buffer has no byte, or a read or a write fails, a line on standard error says so.
#![tactic(auto)]

use argument::{NoNumber, number_at};
use drains::rounded_up;
use passing::Stop;
use piping::{Failure, Trouble, complain, copy_all, unwritten};
use std::io::{self, Read};
use std::num::NonZeroUsize;
use streams::read_full;

const NAME: &[u8] = b"length";

// A message that is here whole.
fn measure(message: &[u8]) -> Result<u64, Trouble> {
    match copy_len::length_of(message) {
        Ok(n) => Ok(n as u64),
        Err(Stop::Short) => Err(Trouble::Incomplete(message.len() as u64)),
        Err(Stop::Broken(n)) => Err(Trouble::Broken(n as u64)),
    }
}

// One that may be longer is copied, and what would go out is counted: for every complete message that is the same number. Where the buffer
// isn't full, the input has ended. Fixed memory: the message, chunk and output below, which is short, since nothing of it is kept.
fn length(input: &mut impl Read) -> Result<u64, Trouble> {
    let mut message = [0u8; 65536];
    let n = read_full(input, &mut message).map_err(|_| Failure::Unread)?;
    if n < message.len() {
        return measure(&message[..n]);
    }
    let mut chunk = [0u8; 65536];
    let mut out = [0u8; 1024];
    let mut whole = message.as_slice().chain(input);
    copy_all(&mut whole, &mut io::sink(), &mut chunk, &mut out)
}

// The length, and the drains over a buffer where one was given.
fn tell(rt: &impl Print, n: u64, buffer: Option<NonZeroUsize>) -> io::Result<()> {
    print!(rt; "{n}")?;
    if let Some(bytes) = buffer {
        print!(rt; " {}", rounded_up(n as usize, bytes.get()))?;
    }
    println!(rt; "")
}

fn tell_all(rt: &HostRuntime, buffer: Option<NonZeroUsize>) -> io::Result<()> {
    let err = rt.stderr();
    match length(&mut rt.stdin()) {
        Ok(n) => tell(rt, n, buffer).or_else(|e| unwritten(&err, NAME, e.kind())),
        Err(Trouble::Failed(Failure::Unwritten(_))) => {
            complain(&err, NAME, b": the copy cannot be counted\n")
        }
        Err(trouble) => trouble.say(&err, NAME),
    }
}

// A buffer of no bytes is refused before the message is read, and so is what is no number.
// Only a line that standard error doesn't take ends it with an error of its own.
fn main(rt: HostRuntime) -> io::Result<()> {
    let buffer = match number_at(&rt, 1) {
        Ok(n) => NonZeroUsize::new(n as usize),
        Err(NoNumber::Missing) => return tell_all(&rt, None),
        Err(NoNumber::Malformed) => None,
    };
    let Some(bytes) = buffer else {
        return complain(
            &rt.stderr(),
            NAME,
            b": a buffer of 0 bytes is refused: number 18\n",
        );
    };
    tell_all(&rt, Some(bytes))
}
