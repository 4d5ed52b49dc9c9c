// The writer's calls for the benchmark in compare/, one after another through a buffer that is drained into `out` whenever it is full and
// at the end: the same work as the loops over the Rust there. A message's calls are numbered, and each follows from its number.
#![tactic(auto)]

use ostream::{Answer, OStream, Written};

// What a message is made of; compare/ has the numbers, which come from C. (The others, which it has none of, are pages whose settings are
// numbers below 100, each written by itself.)
#[derive(Clone, Copy)]
enum Kind {
    Smalls,
    Longs,
    Strings,
    Blobs,
    Arrays,
    Nested,
    Pages,
    Others,
}

impl From<u32> for Kind {
    fn from(number: u32) -> Kind {
        match number {
            0 => Kind::Smalls,
            1 => Kind::Longs,
            2 => Kind::Strings,
            3 => Kind::Blobs,
            4 => Kind::Arrays,
            5 => Kind::Nested,
            6 => Kind::Pages,
            _ => Kind::Others,
        }
    }
}

// A call, with its field's id. (Its cases are its own: `End` is a call, no missing value.)
#[derive(Clone, Copy)]
enum Call {
    Unsigned(u32),
    Str(u32),
    Blob(u32),
    Array(u32),
    Begin(u32),
    End,
    Fp32(u32),
}

// A message, its bytes and its elements.
#[derive(Clone, Copy)]
struct Message<'a> {
    kind: Kind,
    data: &'a [u8],
    elements: &'a [u64],
}

// The writer, the number of the call that is next, and the place in its output to go on from.
#[derive(Clone, Copy)]
struct Run {
    stream: OStream,
    i: usize,
    place: usize,
}

// A state made anew from its fields: handed on as it is, strings took 1.26 times as long. (ostream's own is private: no caller's business.)
fn rebuilt(s: OStream) -> OStream {
    let pending = s.pending;
    OStream {
        offset: s.offset,
        pending,
        depth: s.depth,
        npending: s.npending,
    }
}

fn number(i: usize) -> u32 {
    (i % 16) as u32
}

// Two opens, a number, two closes. (By the call's place, here and below: the message's calls, and no steps to run; a table of a page's 34
// would be longer.)
fn nested(i: usize) -> Call {
    match i % 5 {
        0 => Call::Begin(1),
        1 => Call::Begin(2),
        2 => Call::Unsigned(3),
        _ => Call::End,
    }
}

// A page: an open, thirty settings, a caption, a float, a close.
fn page(i: usize) -> Call {
    let step = i % 34;
    match step {
        0 => Call::Begin(7),
        31 => Call::Str(31),
        32 => Call::Fp32(32),
        33 => Call::End,
        _ => Call::Unsigned(step as u32),
    }
}

fn nth(kind: Kind, i: usize) -> Call {
    match kind {
        Kind::Smalls => Call::Unsigned(number(i)),
        Kind::Longs => Call::Unsigned(100000),
        Kind::Strings => Call::Str(number(i)),
        Kind::Blobs => Call::Blob(number(i)),
        Kind::Arrays => Call::Array(number(i)),
        Kind::Nested => nested(i),
        Kind::Pages | Kind::Others => page(i),
    }
}

// The number that it writes. (From the call's number and not from the struct, so that the compiler sees its range as it does in the loops
// below. By a `match` on the kind, as around: closures would be of as many types, and a `match` would still choose among them.)
fn value(kind: Kind, i: usize) -> u64 {
    match kind {
        Kind::Longs => u64::MAX - (i % 1000) as u64,
        Kind::Pages => (i % 1000) as u64,
        _ => (i % 100) as u64,
    }
}

fn text(kind: Kind, data: &[u8]) -> &[u8] {
    let n = if let Kind::Strings = kind { 24 } else { 40 };
    data.get(..n).unwrap_or(data)
}

// The ith call of a message, from a place in its output on.
fn made(m: &Message<'_>, r: Run, buf: &mut [u8]) -> Written {
    let s = rebuilt(r.stream);
    match nth(m.kind, r.i) {
        Call::Unsigned(id) => s.write_unsigned(buf, id, value(m.kind, r.i), r.place),
        Call::Str(id) => s.write_str(buf, id, text(m.kind, m.data), r.place),
        Call::Blob(id) => s.write_blob(buf, id, m.data, r.place),
        Call::Array(id) => s.write_array_unsigned(buf, id, m.elements, r.place),
        Call::Begin(id) => s.write_sequence_begin_lazy(buf, id, r.place),
        Call::End => s.write_sequence_end(buf, r.place),
        Call::Fp32(id) => s.write_fp32(buf, id, 0.75, r.place),
    }
}

// The next call, and what is next after it: the same one where it meets the buffer's end.
fn again(m: &Message<'_>, r: Run, buf: &mut [u8]) -> Run {
    let w = made(m, r, buf);
    let stream = rebuilt(w.stream);
    match w.answer {
        Ok(Answer::Full(place)) => Run {
            stream,
            i: r.i,
            place,
        },
        _ => Run {
            stream,
            i: r.i.wrapping_add(1),
            place: 0,
        },
    }
}

// Calls that are alike, up to the first that meets the buffer's end.
fn calls<F: FnMut(OStream, usize, &mut [u8]) -> Written>(
    r: Run,
    n: usize,
    buf: &mut [u8],
    mut call: F,
) -> Run
    requires { F.IsAlwaysCallable call }
{
    let mut stream = r.stream;
    for i in r.i..n {
        let w = call(stream, i, buf);
        stream = w.stream;
        if let Ok(Answer::Full(place)) = w.answer {
            return Run {
                stream: rebuilt(stream),
                i,
                place,
            };
        }
    }
    Run {
        stream: rebuilt(stream),
        i: r.i.max(n),
        place: r.place,
    }
}

// Where the settings end of the page that has the ith call; i itself where it is another call. (No Option: up to i itself there is no call,
// an empty range.)
fn last(i: usize, n: usize) -> usize {
    let step = i % 34;
    if step == 0 || 30 < step {
        return i;
    }
    i.wrapping_add(31 - step).min(n)
}

// Numbers and strings, and a page's settings, whose id is counted along, which takes less time than a remainder for each (`% 64`, which
// none reaches, bounds it for the compiler).
fn alike(m: &Message<'_>, r: Run, n: usize, buf: &mut [u8]) -> Run {
    match m.kind {
        Kind::Smalls => calls(r, n, buf, |s, i, buf| {
            s.write_unsigned(buf, number(i), value(Kind::Smalls, i), 0)
        }),
        Kind::Longs => calls(r, n, buf, |s, i, buf| {
            s.write_unsigned(buf, 100000, value(Kind::Longs, i), 0)
        }),
        Kind::Strings => {
            let text = text(m.kind, m.data);
            calls(
                r,
                n,
                buf,
                move |s, i, buf| s.write_str(buf, number(i), text, 0),
            )
        }
        Kind::Pages => {
            let mut id = (r.i % 34) as u32;
            calls(r, last(r.i, n), buf, |s, i, buf| {
                let w = s.write_unsigned(buf, id, value(Kind::Pages, i), 0);
                id = id.wrapping_add(1) % 64;
                w
            })
        }
        _ => r,
    }
}

// The calls up to the first that meets the buffer's end, or up to the nth: none are made alike after "full". (No `while`: that a leg goes
// on, no contract of one call says. Counted by `from.i..n`,
// with the turns of `bench_write` by `out`'s length and an Option for `copy`'s answer, strings into 4,096 bytes took 1.75 times as long.)
fn leg(m: &Message<'_>, from: Run, n: usize, buf: &mut [u8]) -> Run {
    let mut r = from;
    for _ in 0..u64::MAX {
        if n <= r.i || buf.len() <= r.stream.bytes_used() {
            break;
        }
        r = again(m, r, buf);
        if r.place == 0 {
            r = alike(m, r, n, buf);
        }
    }
    r
}

// Where the bytes end in `out`, and where they would begin if there is no room for them (an Option: see `leg`).
fn copy(bytes: &[u8], out: &mut [u8], at: usize) -> usize {
    let end = at.wrapping_add(bytes.len());
    match out.get_mut(at..end) {
        Some(place) => {
            // By index, as `emit::put_rest`: `copy_from_slice` calls `memmove`, which the archive for C is not to need from outside.
            for i in 0..bytes.len().min(place.len()) {
                place[i] = bytes[i];
            }
            end
        }
        None => at,
    }
}

// Writes n fields of a kind through the buffer, drains it into `out`, and answers how many bytes went there. (Its turns are
// counted as those of `leg`, up to a number that none takes.)
pub fn bench_write(kind: u32, n: usize, data: &[u8], buf: &mut [u8], out: &mut [u8]) -> u64 {
    // Fixed memory: an array's elements.
    let elements = [300u64; 64];
    let m = Message {
        kind: Kind::from(kind),
        data,
        elements: &elements,
    };
    let mut r = Run {
        stream: OStream::new(buf),
        i: 0,
        place: 0,
    };
    let mut sent: usize = 0;
    for _ in 0..u64::MAX {
        if n <= r.i {
            break;
        }
        r = leg(&m, r, n, buf);
        sent = copy(
            buf.get(..r.stream.bytes_used()).unwrap_or_default(),
            out,
            sent,
        );
        r.stream = rebuilt(rebuilt(r.stream).flush(buf).stream);
    }
    sent as u64
}
