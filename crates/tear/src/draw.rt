// Random numbers, and what they choose: where a message is cut, when a buffer is drained, and how long it is.
ghost use Rattle.std.specs.Prelude.{◌≤◌};

use std::io;

// The next number: Marsaglia's xorshift. 0 alone stays as it is.
pub fn next(r: u64) -> u64 {
    let a = r ^ (r << 13);
    let b = a ^ (a >> 7);
    b ^ (b << 17)
}

// A length of 0 to `most` bytes, often a short one.
pub fn length(r: u64, most: usize) -> usize
    ensures { result ≤ most }
{
    let mask = match r % 4 {
        0 => 1,
        1 => 15,
        _ => 4095,
    };
    most.min(((r >> 11) & mask) as usize)
}

// What comes where a chunk is spent: the next one, the same once the buffer is drained, or the end, with a last drain. (Three turns of one
// kind: none is a missing value.)
#[derive(Clone, Copy, PartialEq, Eq)]
pub enum Turn {
    Chunk,
    Drain,
    End,
}

// A message cut at random: the last number drawn, the chunk's rest, and what follows it.
#[derive(Clone, Copy)]
pub struct Cuts<'a> {
    random: u64,
    pub chunk: &'a [u8],
    behind: &'a [u8],
}

impl<'a> Cuts<'a> {
    // Before the first chunk is drawn: an empty one.
    pub fn new(seed: u64, message: &'a [u8]) -> Cuts<'a> {
        Cuts {
            random: seed,
            chunk: &message[..0],
            behind: message,
        }
    }

    // So many bytes of the chunk are used.
    pub fn used(&mut self, n: usize) {
        self.chunk = self.chunk.get(n..).unwrap_or_default();
    }

    // The chunk is spent: another one, also an empty one, or the end. A drain comes at the end, and now and then between. Where there is a
    // log, the length goes there.
    pub fn turn(&mut self, log: Option<&impl Print>) -> io::Result<Turn> {
        let left = self.behind.len();
        self.random = next(self.random);
        let n = length(self.random, left);
        if let Some(log) = log {
            print!(log; "{n} ")?;
        }
        let (chunk, behind) = self.behind.split_at(n);
        self.chunk = chunk;
        self.behind = behind;
        Ok(if left == 0 && (self.random >> 8) % 4 == 0 {
            Turn::End
        } else if (self.random >> 5) % 4 == 0 {
            Turn::Drain
        } else {
            Turn::Chunk
        })
    }
}
