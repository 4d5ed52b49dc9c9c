// The event list's last line: the verdict, as text, and put into a lent buffer as far as there is room.
#![tactic(auto)]

ghost use Rattle.std.specs.Prelude.{◌≡◌};
ghost use Rattle.event_list.specs.Lines.{last_line};
ghost use Rattle.putting.specs.Put.{Puts};
ghost use Rattle.last_line.specs.Verdict.{verdict_in};

use emit::put_rest;

// (`istream::Standing` has these cases too, of a reader: with it the last line, which needs none, would stand above the whole reader.)
#[derive(Clone, Copy, PartialEq, Eq)]
pub enum Verdict {
    Complete,
    Incomplete,
    Invalid,
}

impl Verdict {
    // The list's own words: no library has them.
    pub fn line(self) -> &'static [u8]
        ensures { result.now ≡ last_line (verdict_in self) }
    {
        match self {
            Verdict::Complete => b"complete\n",
            Verdict::Incomplete => b"incomplete\n",
            Verdict::Invalid => b"invalid\n",
        }
    }
}

// The last line, from `at` on; where it ends.
pub fn put_verdict(out: &mut [u8], at: usize, v: Verdict) -> usize
    ensures { Puts out.old at (last_line (verdict_in v)) out.new result }
{
    put_rest(out, at, v.line(), 0)
}
