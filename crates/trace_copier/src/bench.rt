// The copier, driven through a buffer that is drained into `out` whenever it is full and at the end.
use copier::{Answer, Copier};
use emit::put_rest;

// What stands below the copier's position is sent.
fn send(k: Copier, buf: &[u8], out: &mut [u8], sent: usize) -> usize {
    put_rest(out, sent, buf.get(..k.writer.offset).unwrap_or(b""), 0)
}

// Copies the ticket in chunks of `size` bytes (0, which is C's number: whole) through the buffer, drains it into `out`, and answers how
// many bytes went there. A call after another, and a drain whenever the buffer is full: after "full" the chunk's rest, after a verdict the
// next chunk; over a buffer of no byte, where "full" comes for ever, too. (The calls are counted up to a number that no run uses up: a
// `loop` would need a contract of one call to say that they end.)
pub fn bench_copy(ticket: &[u8], size: usize, buf: &mut [u8], out: &mut [u8]) -> usize {
    let most = if size == 0 { ticket.len() } else { size };
    let mut k = Copier::new(buf, 0).copier;
    let mut sent = 0;
    for chunk in ticket.chunks(most.max(1)) {
        let mut rest = chunk;
        for _ in 0..u64::MAX {
            let f = k.feed(rest, buf);
            k = f.copier;
            if k.writer.offset == buf.len() {
                sent = send(k, buf, out, sent);
                k = k.flush(buf).copier;
            }
            if !matches!(f.answer, Ok(Answer::Full)) || buf.is_empty() {
                break;
            }
            rest = rest.get(f.used..).unwrap_or(b"");
        }
    }
    send(k, buf, out, sent)
}
