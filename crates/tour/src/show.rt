// What the tour prints.
use event::Event;
use istream::{Answer, Status};
use std::io;
use types::Error;

pub fn title(rt: &impl Print, word: &str) -> io::Result<()> {
    println!(rt; "\n{word}")
}

// An event's lines, as the program `list_events` prints them: through fixed memory.
pub fn event(rt: &impl Print, event: Event, chunk: &[u8]) -> io::Result<()> {
    let mut text = [0u8; 4096];
    let end = lines::put_event(&mut text, 0, chunk, event);
    bytes(rt, &text, end)
}

pub fn verdict(rt: &impl Print, answer: Result<Answer, Error>) -> io::Result<()> {
    match answer {
        Ok(Answer::Status(Status::Complete)) => println!(rt; "complete so far"),
        Ok(Answer::Status(Status::Incomplete)) => println!(rt; "incomplete so far"),
        _ => println!(rt; "broken"),
    }
}

// The first n bytes of a buffer. (Cut here once, not at each caller.)
pub fn bytes(rt: &impl Print, buf: &[u8], n: usize) -> io::Result<()> {
    rt.write_all(buf.get(..n).unwrap_or_default())
}
