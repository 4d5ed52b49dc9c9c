// A message through the copier, chunk by chunk, to a sink. And what a program says of a message, or of a file, that isn't as it should be:
// `./sofab` makes its status of these lines.
#![tactic(auto)]

use copier::{Answer, Copier};
use istream::Status;
use std::io::{self, ErrorKind, Read, Write};
pub use streams::{Failure, unread, unwritten};

// Why there is no whole copy: the message ends early, after so many bytes, or is broken, at such a byte; or a read or a write failed. (The
// error of the Results here, and no missing value.)
#[derive(Clone, Copy)]
pub enum Trouble {
    Incomplete(u64),
    Broken(u64),
    Failed(Failure),
}

impl From<Failure> for Trouble {
    fn from(failure: Failure) -> Trouble {
        Trouble::Failed(failure)
    }
}

impl Trouble {
    // What goes to standard error, by the program's name.
    pub fn say(self, err: &impl Print, name: &[u8]) -> io::Result<()> {
        match self {
            Trouble::Incomplete(bytes) => complain_at(
                err,
                name,
                b": incomplete, it ends after byte ",
                bytes,
            ),
            Trouble::Broken(byte) => complain_at(err, name, b": broken at byte ", byte),
            Trouble::Failed(failure) => failure.say(err, name),
        }
    }
}

// The copier, and how many bytes of the message it was given and how many it gave.
#[derive(Clone, Copy)]
struct Copy {
    copier: Copier,
    bytes: u64,
    sent: u64,
}

impl Copy {
    // The buffer's bytes go to the sink.
    fn drain(&mut self, sink: &mut impl Write, out: &[u8]) -> Result<(), Failure> {
        let drained = self.copier.flush(out);
        self.copier = drained.copier;
        let Some(bytes) = drained.answer.ok().and_then(|n| out.get(..n)) else {
            return Err(Failure::Unwritten(ErrorKind::WriteZero));
        };
        self.sent = self.sent.wrapping_add(bytes.len() as u64);
        sink.write_all(bytes)
            .map_err(|e| Failure::Unwritten(e.kind()))
    }

    // A chunk, call by call until it is spent. After "full" that goes on, once the bytes are out. (Tried as `loop`: its measure stayed
    // open, since no contract of one call says that a feed after a drain uses a byte or writes one.)
    fn take(
        &mut self,
        chunk: &[u8],
        sink: &mut impl Write,
        out: &mut [u8],
    ) -> Result<Status, Trouble> {
        let mut rest = chunk;
        for _ in 0..u64::MAX {
            let copied = self.copier.feed(rest, out);
            self.copier = copied.copier;
            self.bytes = self.bytes.wrapping_add(copied.used as u64);
            rest = rest.get(copied.used..).unwrap_or_default();
            match copied.answer {
                Ok(Answer::Full) => self.drain(sink, out)?,
                Ok(Answer::Status(status)) => return Ok(status),
                Err(_) => return Err(Trouble::Broken(self.bytes)),
            }
        }
        Ok(Status::Incomplete)
    }

    // Chunk by chunk to the end of the input; a message of no byte is complete. (Tried as `loop`: its measure stayed open, since no
    // `Read` says that it ends. So the turns are counted, up to a number that no run uses up.)
    fn take_all(
        &mut self,
        input: &mut impl Read,
        sink: &mut impl Write,
        chunk: &mut [u8],
        out: &mut [u8],
    ) -> Result<(), Trouble> {
        let mut status = Status::Complete;
        for _ in 0..u64::MAX {
            let n = input.read(chunk).map_err(|_| Failure::Unread)?;
            if n == 0 {
                break;
            }
            status = self.take(&chunk[..n], sink, out)?;
        }
        match status {
            Status::Complete => Ok(()),
            Status::Incomplete => Err(Trouble::Incomplete(self.bytes)),
        }
    }
}

// The copy of a message, and how many bytes it has. The buffer is taken: it has more than one byte. What it holds goes out in the end
// whatever the message is; a failed write is said first, since then the output is too short.
pub fn copy_all(
    input: &mut impl Read,
    sink: &mut impl Write,
    chunk: &mut [u8],
    out: &mut [u8],
) -> Result<u64, Trouble> {
    let mut copy = Copy {
        copier: Copier::new(out, 0).copier,
        bytes: 0,
        sent: 0,
    };
    let taken = copy.take_all(input, sink, chunk, out);
    copy.drain(sink, out)?;
    taken?;
    Ok(copy.sent)
}

// ---- what goes to standard error, by the program's name

pub fn complain(err: &impl Print, name: &[u8], what: &[u8]) -> io::Result<()> {
    err.write_all(name)?;
    err.write_all(what)
}

fn complain_at(err: &impl Print, name: &[u8], what: &[u8], byte: u64) -> io::Result<()> {
    complain(err, name, what)?;
    println!(err; "{byte}")
}
