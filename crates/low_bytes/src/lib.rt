// The low bytes of a number, low byte first, into a lent buffer: what a float is written as.
#![tactic(auto)]

ghost use Rattle.std.specs.Prelude.{◌+◌, ◌≤◌, length};
ghost use Rattle.layout.specs.Field.{low_bytes};
ghost use Rattle.putting.specs.Put.{Puts};

// The n low bytes of x, low byte first, where there is room for them; where they end. (The buffer with a place, and not the slice from
// there on: what Puts says is of the whole buffer, and so are the callers' contracts.)
pub fn put_low(buf: &mut [u8], pos: usize, x: u64, n: usize) -> usize
    requires { (n ≤ 8) × (pos + n ≤ length buf.old) }
    ensures { Puts buf.old pos (low_bytes n x) buf.new result }
{
    buf[pos..pos + n].copy_from_slice(&x.to_le_bytes()[..n]);
    pos + n
}
