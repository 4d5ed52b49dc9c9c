// The library in two short functions, which README quotes: a message read chunk by chunk, and one written through a small buffer. Each
// hands its state back, from which the next chunk or field goes on. (The program `manifest` copies one.)
#![tactic(auto)]

mod show;

use istream::IStream;
use ostream::OStream;
use std::io;

// The events of a chunk. A call stops at each; the next one, on the chunk's rest, goes on behind it. (No `for`: how many events a chunk
// has, its calls alone say.)
fn read(rt: &impl Print, start: IStream, chunk: &[u8]) -> io::Result<IStream> {
    let mut reader = start;
    let mut rest = chunk;
    loop {
        let fed = reader.feed(rest);
        reader = fed.stream;
        let Ok(istream::Answer::Event(event)) = fed.answer else {
            show::verdict(rt, fed.answer)?;
            return Ok(reader);
        };
        show::event(rt, event, rest)?;
        rest = &rest[fed.read..];
    }
}

// A number into a buffer of any length: at "full" the buffer is drained, and the call made again from the place that it answered.
// (Tried as a `loop`: its measure stayed open, since over a buffer of no byte there is no end. So the turns are counted.)
fn write(
    rt: &impl Print,
    start: OStream,
    buf: &mut [u8],
    id: u32,
    value: u64,
) -> io::Result<OStream> {
    let mut writer = start;
    let mut place: usize = 0;
    for _ in 0..u64::MAX {
        let written = writer.write_unsigned(buf, id, value, place);
        writer = written.stream;
        let Ok(ostream::Answer::Full(out)) = written.answer else {
            break;
        };
        writer = drain(rt, writer, buf)?;
        place = out;
    }
    Ok(writer)
}

// What stands in the buffer is sent, and writing starts at its first byte again.
fn drain(rt: &impl Print, writer: OStream, buf: &[u8]) -> io::Result<OStream> {
    let drained = writer.flush(buf);
    if let Ok(n) = drained.answer {
        show::bytes(rt, buf, n)?;
    }
    Ok(drained.stream)
}

// Number 300 with id 1, spelled with two bytes more than it takes, and a string, in two chunks; then two numbers, through fixed memory.
fn main(rt: HostRuntime) -> io::Result<()> {
    show::title(&rt, "read")?;
    let reader = read(&rt, IStream::new(), b"\x88\x00\xac\x82")?;
    read(&rt, reader, b"\x00\x12\x22Helo")?;
    let mut buf: [u8; 2] = [0; 2];
    show::title(&rt, "write")?;
    let opened = OStream::with_flush(&buf, 0);
    let writer = write(&rt, opened.stream, &mut buf, 1, 300)?;
    let last = write(&rt, writer, &mut buf, 2, 7)?;
    drain(&rt, last, &buf)?;
    Ok(())
}
