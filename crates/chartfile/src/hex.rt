// Bytes in upper-case hexadecimal.
ghost use Rattle.std.specs.Prelude.{◌≡◌, ℕ, ◌<◌, List, MatchOption, ◌≢◌};
ghost use Rattle.chartfile.specs.Hex.{digit, Spells};
ghost use Rattle.chartfile.specs.Faults.{FirstLine};

use arrayvec::ArrayVec;

// A line has at most so many bytes.
pub const MOST_BYTES: usize = 32;

// What ends a line.
pub const LINE_END: u8 = 0x0A;

// The number that a digit writes. A `char`'s `to_digit` would take lower case too.
fn value_of(symbol: u8) -> Option<u8>
    ensures { MatchOption result ((d : ℕ) → d < 16 → symbol ≢ digit d) (λ d. (d < 16) × (symbol ≡ digit d)) }
{
    match symbol {
        b'0'..=b'9' => Some(symbol - b'0'),
        b'A'..=b'F' => Some(symbol - b'A' + 10),
        _ => None,
    }
}

// The digit of a number below 16. `char::from_digit` would give lower case.
pub fn digit_of(value: u8) -> u8
    requires { value < 16 }
    ensures { result ≡ digit value }
{
    if value < 10 {
        b'0' + value
    } else {
        b'A' - 10 + value
    }
}

// The byte that two digits write.
fn byte_of(high: u8, low: u8) -> Option<u8>
    ensures { MatchOption result ((b : ℕ) → b < 256 → Spells high low b → ⊥) (λ b. Spells high low b) }
{
    Some(value_of(high)? * 16 + value_of(low)?)
}

// Decodes the first line of a text, and gives the rest.
pub fn decode(text: &[u8]) -> Option<(ArrayVec<u8, MOST_BYTES>, &[u8])>
    ensures { MatchOption result ((bs rest : List ℕ) → FirstLine text.now bs rest → ⊥) (λ p. FirstLine text.now p.0.items p.1.now) }
{
    let mut bytes = ArrayVec::new();
    let mut rest = text;
    loop {
        let (high, more) = rest.split_first()?;
        if *high == LINE_END {
            return (!bytes.is_empty()).then_some((bytes, more));
        }
        let (low, after) = more.split_first()?;
        bytes.try_push(byte_of(*high, *low)?).ok()?;
        rest = after;
    }
}
