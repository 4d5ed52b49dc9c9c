// A number that a program is given as an argument.
#![tactic(auto)]

ghost use Rattle.std.specs.Prelude.{◌<◌, IfSome};

use std::env::FillError;
use std::rt::Env;

// Why there is no number: there is no such argument, or it is no number.
#[derive(Clone, Copy)]
pub enum NoNumber {
    Missing,
    Malformed,
}

// A digit's value.
fn digit(b: u8) -> Option<u8>
    ensures { IfSome result (λ d. d < 10) }
{
    b.is_ascii_digit().then(|| b - b'0')
}

// A word in decimal, of up to 19 digits after its leading zeros. (By hand: `parse` takes a sign as well, and 20 digits,
// and two tests before it would be no shorter.)
fn number(word: &[u8]) -> Option<u64> {
    let mut n: u64 = 0;
    for &b in word {
        if 1000000000000000000 <= n {
            return None;
        }
        n = n * 10 + u64::from(digit(b)?);
    }
    Some(n)
}

// The number that the ith argument says. The program's own name has 0.
pub fn number_at(rt: &impl Env, i: usize) -> Result<u64, NoNumber> {
    let mut word = [0u8; 4096]; // fixed memory: there is no heap
    match rt.arg(i, &mut word) {
        Ok(n) => number(&word[..n]).ok_or(NoNumber::Malformed),
        Err(FillError::NotPresent) => Err(NoNumber::Missing),
        Err(FillError::TooLong) => Err(NoNumber::Malformed),
    }
}
