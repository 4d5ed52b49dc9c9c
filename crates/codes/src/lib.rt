// The numbers that C is answered for a verdict on a message given whole, for the length of its plain copy, and for the drains that this
// costs: what stands here case by case is the C interface, and `include/sofab.h` has it.
#![tactic(auto)]

ghost use Rattle.std.specs.Prelude.{◌≡◌, ◌≢◌, ℕ, ◌<◌, MatchOption};
ghost use Rattle.layout.specs.Message as layout;
ghost use Rattle.whole.specs.Whole.{verdict_in};
ghost use Rattle.copy_len.specs.CopyLen.{length_in};
ghost use Rattle.drain_count.specs.DrainCount.{drains_in};
ghost use Rattle.exports.specs.Exports.{number, refused, measured, drained};

use drain_count::{Drains, Uncounted};
use passing::Stop;
use whole::Verdict;

// By the call that asks for the verdict.
pub fn number(v: Verdict) -> i64
    ensures { (w : layout.Verdict) → v ≡ verdict_in w → result ≡ number w }
{
    match v {
        Verdict::Complete => 0,
        Verdict::Incomplete => 1,
        Verdict::Broken(_) => -2,
    }
}

// By a call that asks for more than the verdict: none where the message is complete, and the call goes on. (Two of its numbers are
// in `stopped` too: `Verdict` and `Stop` have two cases alike, which such calls answer alike.)
pub fn refusal(v: Verdict) -> Option<i64>
    ensures { (w : layout.Verdict) → v ≡ verdict_in w → MatchOption result (w ≡ layout.complete) (λ n. (w ≢ layout.complete) × (n ≡ refused w)) }
{
    match v {
        Verdict::Complete => None,
        Verdict::Incomplete => Some(-100),
        Verdict::Broken(_) => Some(-2),
    }
}

fn stopped(s: Stop) -> i64
    ensures { (w : layout.Verdict) → (n : ℕ) → Err s ≡ length_in w n → result ≡ measured w n }
{
    match s {
        Stop::Short => -100,
        Stop::Broken(_) => -2,
    }
}

// By the call that asks for the length, which is one that an answer can name.
pub fn length(l: Result<usize, Stop>) -> i64
    requires { (n : ℕ) → l ≡ Ok n → n < 9223372036854775808 }
    ensures { (w : layout.Verdict) → (n : ℕ) → l ≡ length_in w n → result ≡ measured w n }
{
    match l {
        Ok(n) => n as i64,
        Err(s) => stopped(s),
    }
}

fn uncounted(u: Uncounted) -> i64
    ensures { (b : ℕ) → (w : layout.Verdict) → (n : ℕ) → Err u ≡ drains_in b (length_in w n) → result ≡ drained b w n }
{
    match u {
        Uncounted::Stopped(s) => stopped(s),
        Uncounted::Refused(_) => -18,
    }
}

// By the call that asks for the drains, as many as an answer can name.
pub fn drains(d: Result<Drains, Uncounted>) -> i64
    requires { (n : ℕ) → (k : ℕ) → d ≡ Ok (record { count = k; len = n }) → k < 9223372036854775808 }
    ensures { (b : ℕ) → (w : layout.Verdict) → (n : ℕ) → d ≡ drains_in b (length_in w n) → result ≡ drained b w n }
{
    match d {
        Ok(told) => told.count as i64,
        Err(u) => uncounted(u),
    }
}
