// A varint into a lent buffer, byte by byte as far as there is room.
#![tactic(auto)]

ghost use Rattle.layout.specs.Varint.{shortest};
ghost use Rattle.putting.specs.Put.{Puts};

// The varint of v from pos on; where it ends. (The buffer with a place, and not the slice from there on: what Puts says is of the whole
// buffer, and so are the callers' contracts.)
pub fn put_whole(buf: &mut [u8], pos: usize, v: u64) -> usize
    ensures { Puts buf.old pos (shortest v) buf.new result }
{
    let mut rest = v;
    let end = buf.len();
    if pos < end {
        for (k, b) in buf[pos..].iter_mut().enumerate() {
            if rest < 128 {
                *b = rest as u8;
                return pos + k + 1;
            }
            *b = (rest % 128 + 128) as u8;
            rest /= 128;
        }
    }
    pos.max(end)
}
