// Makes the calls of the script on standard input, a row each, and holds every call to what its row says: its answer, its state and the
// buffer. A row that differs is printed; at the end, how many calls there were and how many differ. README.md says what a row has.
// A read or a write that fails ends it with that error.
#![tactic(auto)]

mod calls;

use calls::make;
use desk::BLANK;
use rows::{Call, Row, State, bytes_of, cleared, right, row_named, same_part, set};
use script::{after, parted, word};
use std::io::{self, Read};
use streams::read_full;
use trace::gatherer::trace_part;

// A block of the script: no row goes over its end.
const BLOCK: usize = 65536;

// What the next call finds; the calls so far, and how many differ.
#[derive(Clone, Copy)]
struct Run {
    state: State,
    calls: u64,
    differ: u64,
}

impl Run {
    fn count(&mut self, rt: &HostRuntime, right: bool, row: &[u8]) -> io::Result<()> {
        self.calls = self.calls.wrapping_add(1);
        if right {
            return Ok(());
        }
        self.differ = self.differ.wrapping_add(1);
        rt.write_all(row)?;
        rt.write_all(b"\n")
    }

    // The call, with the bytes behind `<`. What it leaves is told from the `=` on.
    fn make(&mut self, rt: &HostRuntime, call: Call, row: &[u8]) -> io::Result<()> {
        let words = parted(row, b' ').1;
        let given = parted(words, b'=').0;
        let told = words.get(given.len()..).unwrap_or_default();
        self.state.desk = set(given, cleared(self.state.desk));
        let was = self.state;
        let data = bytes_of(after(given, b'<'));
        let lent = self.state.buf.len;
        let buf = self.state.buf.bytes.get_mut(..lent).unwrap_or_default();
        make(call, &mut self.state.desk, data.as_slice(), buf);
        let right = right(told, &was, &self.state);
        self.count(rt, right, row)
    }

    // The part that the gatherer's second call returns, on the answer of the row before or of its own words.
    fn part(&mut self, rt: &HostRuntime, row: &[u8]) -> io::Result<()> {
        let desk = set(parted(row, b' ').1, self.state.desk);
        let data = bytes_of(after(row, b'<'));
        let mut part = bytes_of(b"");
        part.len = trace_part(
            &desk,
            self.state.buf.as_slice(),
            data.as_slice(),
            &mut part.bytes,
        );
        self.count(rt, same_part(row, part), row)
    }

    // A row that begins with `#` is a remark.
    fn row(&mut self, rt: &HostRuntime, text: &[u8]) -> io::Result<()> {
        if text.is_empty() || text.starts_with(b"#") {
            return Ok(());
        }
        match row_named(word(text, 0)) {
            Some(Row::Buffer) => self.state.buf = bytes_of(word(text, 1)),
            Some(Row::Fresh) => self.state.desk = BLANK,
            Some(Row::Part) => return self.part(rt, text),
            Some(Row::Call(call)) => return self.make(rt, call, text),
            None => return self.count(rt, false, text),
        }
        Ok(())
    }

    // Block by block, in fixed memory. (No `loop`: no Read says that it ends. So the blocks are counted, up to a number that no run uses
    // up.)
    fn rows(&mut self, rt: &HostRuntime, input: &mut impl Read) -> io::Result<()> {
        let mut block = [0u8; BLOCK];
        for _ in 0..u64::MAX {
            let n = read_full(input, &mut block)?;
            for row in block[..n].split(|b| *b == b'\n') {
                self.row(rt, row)?;
            }
            if n < BLOCK {
                break;
            }
        }
        Ok(())
    }
}

fn main(rt: HostRuntime) -> io::Result<()> {
    let mut run = Run {
        state: State {
            desk: BLANK,
            buf: bytes_of(b""),
        },
        calls: 0,
        differ: 0,
    };
    run.rows(&rt, &mut rt.stdin())?;
    println!(rt; "{} calls, {} differences", run.calls, run.differ)
}
