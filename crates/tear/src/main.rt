// Tears the message on standard input at random places, run after run: copies it through buffers of random lengths, reads message and
// copy back in other cuts, and says whether every copy and every list of events was the same. The first argument is the number of runs.
#![tactic(auto)]

mod back;
mod draw;
mod torn;

ghost use Rattle.std.specs.Prelude.{◌≤◌};

use back::Sum;
use copier::{Answer, Copier};
use istream::Status;
use std::io::{self, Read};
use std::rt::Env;
use streams::{read_full, unread, unwritten};

const NAME: &[u8] = b"tear";

// How many runs where none are asked for.
const RUNS: u64 = 1000;

// A run that is as expected shows nothing.
const NO_LOG: Option<&HostRuntime> = None;

// The length of a run's buffer.
fn size(random: u64) -> usize
    ensures { result ≤ 4096 }
{
    draw::length(random, 4095) + 1
}

// Another number for each run.
fn seed(run: u64) -> u64 {
    draw::next(draw::next(draw::next((run << 20).wrapping_add(88172645463325252))))
}

// The message, the copy expected, and what a reading of either comes to.
#[derive(Clone, Copy)]
struct Trial<'a> {
    ticket: &'a [u8],
    manifest: &'a [u8],
    sum: Option<Sum>,
}

impl Trial<'_> {
    // Whether a copy through a buffer of a length drawn is the one expected.
    fn copies(&self, log: Option<&impl Print>, random: u64) -> io::Result<bool> {
        let mut buf = [0u8; 4096]; // fixed memory, as all arrays here: there is no heap
        let room = &mut buf[..size(random)];
        torn::copies(log, self.ticket, self.manifest, room, draw::next(random))
    }

    // Whether one reading of these bytes is the one expected.
    fn reads(&self, log: Option<&impl Print>, bytes: &[u8], random: u64) -> io::Result<bool> {
        let read = back::read(log, bytes, draw::next(random))?;
        Ok(read.is_some() && read == self.sum)
    }

    // Whether one run is as expected, its cuts shown where there is a log: a copy, and the message and the copy read back.
    fn run(&self, log: Option<&impl Print>, seed: u64) -> io::Result<bool> {
        let random = draw::next(seed);
        if !self.copies(log, random)? {
            return Ok(false);
        }
        if !self.reads(log, self.ticket, random >> 1)? {
            return Ok(false);
        }
        self.reads(log, self.manifest, random >> 2)
    }

    // The first of n runs that isn't as expected.
    fn first_other(&self, n: u64) -> io::Result<Option<u64>> {
        for run in 0..n {
            if !self.run(NO_LOG, seed(run))? {
                return Ok(Some(run));
            }
        }
        Ok(None)
    }

    // A run that differs, with its cuts.
    fn show(&self, err: &impl Print, run: u64) -> io::Result<()> {
        let from = seed(run);
        print!(err;
            "tear: run {run} differs: buffer {}, chunks ",
            size(draw::next(from))
        )?;
        self.run(Some(err), from)?;
        println!(err; "")
    }
}

// The runs, and what they showed.
fn try_all(rt: &HostRuntime, n: u64, ticket: &[u8], manifest: &[u8]) -> io::Result<()> {
    let err = rt.stderr();
    let sum = back::read(NO_LOG, ticket, seed(n))?;
    let trial = Trial {
        ticket,
        manifest,
        sum,
    };
    if let Some(run) = trial.first_other(n)? {
        return trial.show(&err, run);
    }
    let said = println!(rt;
        "{n} runs, each a copy of the same {} bytes;\nmessage and copy, read back in other cuts, gave the same events each time.",
        manifest.len()
    );
    said.or_else(|e| unwritten(&err, NAME, e.kind()))
}

// First the copy in one piece, in one call. No copy is longer than its message: the buffer holds it.
fn tear(rt: &HostRuntime, n: u64, ticket: &[u8]) -> io::Result<()> {
    let mut manifest = [0u8; 65536];
    let copied = Copier::new(&manifest, 0).copier.feed(ticket, &mut manifest);
    match copied.answer {
        Ok(Answer::Status(Status::Complete)) => {
            let sent = copied.copier.flush(&manifest).answer.unwrap_or(0);
            try_all(rt, n, ticket, manifest.get(..sent).unwrap_or_default())
        }
        Ok(_) => { eprintln!(rt; "tear: incomplete, it ends after byte {}", ticket.len()) }
        Err(_) => eprintln!(rt; "tear: broken at byte {}", copied.used),
    }
}

// A number in decimal, of nine digits at most. (Not by `argument` or `parse`, which refuse what is no
// number: here any word is taken for one.)
fn number(word: &[u8]) -> u64 {
    let mut n: u64 = 0;
    for &b in word {
        if 100000000 <= n {
            break;
        }
        n = n * 10 + u64::from(b.saturating_sub(b'0'));
    }
    n
}

fn runs_asked(rt: &impl Env) -> u64 {
    let mut word = [0u8; 4096]; // fixed memory
    match rt.arg(1, &mut word) {
        Ok(n) if 0 < n => number(&word[..n]),
        _ => RUNS,
    }
}

// How many bytes the message has, if they are held: a byte more is asked for, to tell one that is longer.
fn held(input: &mut impl Read, ticket: &mut [u8]) -> io::Result<Option<usize>> {
    let n = read_full(input, ticket)?;
    let mut spare = [0u8; 1];
    let more = read_full(input, &mut spare)?;
    Ok((more == 0).then_some(n))
}

// Only a line that standard error doesn't take ends it with an error of its own.
fn main(rt: HostRuntime) -> io::Result<()> {
    let mut ticket = [0u8; 65536]; // fixed memory
    match held(&mut rt.stdin(), &mut ticket) {
        Ok(Some(n)) => { tear(&rt, runs_asked(&rt), ticket.get(..n).unwrap_or_default()) }
        Ok(None) => {
            eprintln!(rt;
                "tear: the message is longer than 65536 bytes, which is all that is held here"
            )
        }
        Err(_) => unread(&rt.stderr(), NAME),
    }
}
