// Copies the message on standard input to standard output, every field in its shortest form, chunk by chunk through the copier.
// Nothing else goes to standard output. Where the message isn't complete, or a read or a write fails, a line on standard error says so.
#![tactic(auto)]

use piping::copy_all;
use std::io;

const NAME: &[u8] = b"manifest";

// Only a line that standard error doesn't take ends it with an error of its own.
fn main(rt: HostRuntime) -> io::Result<()> {
    // Fixed memory: there is no heap.
    let mut chunk = [0u8; 65536];
    let mut out = [0u8; 65536];
    match copy_all(&mut rt.stdin(), &mut io::writer(&rt), &mut chunk, &mut out) {
        Ok(_) => Ok(()),
        Err(trouble) => trouble.say(&rt.stderr(), NAME),
    }
}
