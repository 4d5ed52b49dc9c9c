// One copy of a torn message, through a buffer that is drained at "full", at the end, and now and then between, beside the copy expected.
use crate::draw::{Cuts, Turn};
use copier::{Answer, Copier};
use std::io;

// The buffer's first bytes are sent: what is due of the copy expected after them, if they are its next ones.
fn drained<'a>(copier: &mut Copier, buf: &[u8], due: &'a [u8]) -> Option<&'a [u8]> {
    let drained = copier.flush(buf);
    *copier = drained.copier;
    let n = drained.answer.ok()?;
    due.strip_prefix(buf.get(..n)?)
}

// Whether such a copy is the one expected, all of it. (Tried as `loop`: its measure stayed open, since the end is drawn at random.)
pub fn copies(
    log: Option<&impl Print>,
    ticket: &[u8],
    manifest: &[u8],
    buf: &mut [u8],
    seed: u64,
) -> io::Result<bool> {
    let mut copier = Copier::new(buf, 0).copier;
    let mut cuts = Cuts::new(seed, ticket);
    let mut due = manifest;
    for _ in 0..u64::MAX {
        let copied = copier.feed(cuts.chunk, buf);
        copier = copied.copier;
        cuts.used(copied.used);
        let turn = match copied.answer {
            Ok(Answer::Full) => Turn::Drain,
            Ok(Answer::Status(_)) => cuts.turn(log)?,
            Err(_) => return Ok(false),
        };
        if turn != Turn::Chunk {
            let Some(rest) = drained(&mut copier, buf, due) else {
                return Ok(false);
            };
            due = rest;
        }
        if turn == Turn::End {
            break;
        }
    }
    Ok(due.is_empty())
}
