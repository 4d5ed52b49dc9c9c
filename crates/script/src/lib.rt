// A script on standard input, a case to a line, its words parted by one blank. A word that isn't there is empty.
#![tactic(auto)]

ghost use Rattle.std.specs.Prelude.{◌≡◌, ◌⊎◌, ◌≤◌, Contains, length, [], ◌∷◌, ◌++◌};

// The word of a line with this number, counted from 0.
pub fn word(line: &[u8], k: usize) -> &[u8] {
    line.split(|b| *b == b' ').nth(k).unwrap_or(b"")
}

// What stands before the first mark, and what stands behind it; where there is none, all stands before it.
pub fn parted(text: &[u8], mark: u8) -> (&[u8], &[u8])
    ensures parts { (text.now ≡ result.0.now ++ mark ∷ result.1.now) ⊎ ((result.0.now ≡ text.now) × (result.1.now ≡ [])) }
    ensures first { ¬ (Contains result.0.now mark) }
{
    match text.iter().position(|b| *b == mark) {
        Some(at) => (&text[..at], &text[at + 1..]),
        None => (text, b""),
    }
}

// What stands behind a mark, up to the next blank.
pub fn after(line: &[u8], mark: u8) -> &[u8] {
    word(parted(line, mark).1, 0)
}

// A hexadecimal digit's value. (`to_digit` would take small letters too.)
fn nibble(b: u8) -> Option<u8> {
    match b {
        b'0'..=b'9' => Some(b - b'0'),
        b'A'..=b'F' => Some(b - b'A' + 10),
        _ => None,
    }
}

// The bytes of a word in hexadecimal, as far as there is room; how many went in. A digit goes into its byte from below: after two, nothing
// else is left there. What is no digit is passed over.
pub fn unhex(word: &[u8], out: &mut [u8]) -> usize
    ensures { result ≤ length out.new }
{
    let mut digits = word.iter().filter_map(|b| nibble(*b));
    for (whole, byte) in out.iter_mut().enumerate() {
        let Some(high) = digits.next() else {
            return whole;
        };
        *byte = *byte << 4 | high;
        let Some(low) = digits.next() else {
            return whole;
        };
        *byte = *byte << 4 | low;
    }
    out.len()
}
