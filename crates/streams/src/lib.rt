// Standard input and output where they end or fail: a buffer filled, and what a program says of a stream that failed it. `./sofab` makes
// its status of these lines.
#![tactic(auto)]

ghost use Rattle.std.specs.Prelude.{◌<◌, ◌≤◌, length, take, IfOk};
ghost use Rattle.std.specs.Io.KnownBytes.{Consumes, IsAtEnd};

use std::io::{self, ErrorKind, Read};

// Reads until the buffer is full or the input ends, and answers how many bytes it put at the buffer's start: the next ones of the input.
pub fn read_full<R: Read>(input: &mut R, buf: &mut [u8]) -> io::Result<usize>
    ensures within { IfOk result (λ n. n ≤ length buf.new) }
    ensures bytes { IfOk result (λ n. Consumes (R.remaining input.old) (R.remaining input.new) (take n buf.new)) }
    ensures end { IfOk result (λ n. n < length buf.new → IsAtEnd (R.remaining input.new)) }
{
    // No `for`: `done` goes on by what each read answers, and only its end says how often. (`read_exact` takes an early end for an error.)
    let mut done = 0;
    while done < buf.len() {
        let n = input.read(&mut buf[done..])?;
        if n == 0 {
            return Ok(done);
        }
        done += n;
    }
    Ok(done)
}

// Which stream failed a program: what a Result here has as its error, and no missing value.
#[derive(Clone, Copy)]
pub enum Failure {
    Unread,
    Unwritten(ErrorKind),
}

impl Failure {
    pub fn say(self, err: &impl Print, name: &[u8]) -> io::Result<()> {
        match self {
            Failure::Unread => unread(err, name),
            Failure::Unwritten(why) => unwritten(err, name, why),
        }
    }
}

pub fn unread(err: &impl Print, name: &[u8]) -> io::Result<()> {
    err.write_all(name)?;
    err.write_all(b": standard input cannot be read\n")
}

// That nobody reads the output any more is the reader's choice, and told apart.
pub fn unwritten(err: &impl Print, name: &[u8], why: ErrorKind) -> io::Result<()> {
    err.write_all(name)?;
    if why == ErrorKind::BrokenPipe {
        err.write_all(b": nobody reads standard output any more\n")
    } else {
        err.write_all(b": standard output cannot be written\n")
    }
}

#[cfg(test)]
mod tests {
    use super::*;
    use std::test::Fail;

    // So many bytes, one a read, and then the end or a failure.
    #[derive(Clone, Copy)]
    struct Torn {
        left: u8,
        fails: bool,
    }

    impl Read for Torn {
        fn read(&mut self, buf: &mut [u8]) -> io::Result<usize> {
            if buf.len() == 0 {
                return Ok(0);
            }
            if self.left == 0 {
                return if self.fails {
                    Err(io::Error::from(ErrorKind::Other))
                } else {
                    Ok(0)
                };
            }
            buf[0] = self.left;
            self.left -= 1;
            Ok(1)
        }
    }

    #[test]
    fn an_input_that_ends(rt: HostRuntime) -> Result<(), Fail> {
        let mut buf = [0u8; 5];
        let mut input = Torn {
            left: 3,
            fails: false,
        };
        let n = read_full(&mut input, &mut buf)?;
        assert!(rt; n == 3 && buf == [3, 2, 1, 0, 0]);
        Ok(())
    }

    // A failure is no end, and a full buffer asks for no more.
    #[test]
    fn an_input_that_fails(rt: HostRuntime) -> Result<(), Fail> {
        let mut buf = [0u8; 5];
        let mut input = Torn {
            left: 3,
            fails: true,
        };
        let n = read_full(&mut input, &mut buf[0..2])?;
        assert!(rt; n == 2 && buf == [3, 2, 0, 0, 0]);
        assert!(rt; read_full(&mut input, &mut buf).is_err());
        Ok(())
    }
}
