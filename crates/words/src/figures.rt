// The reading of single words: numbers, places and modes.
ghost use Rattle.std.specs.Prelude.{◌≡◌, ◌↔◌, ◌+◌, ◌-◌, ◌*◌, ◌^◌, ◌<◌, IsTrue, position};
ghost use Rattle.std.specs.Str.{bytes_eq};
ghost use Rattle.std.specs.List.{AllByRecursion};
ghost use Rattle.words.specs.Figures.{Reads, Found, Digit, Numeral, Named, Place, mode_text, texts};

use crate::faults::{Fault, Part};
use promise::Mode;

// The number with one more digit, where the byte is one and there is such a number of 32 bits.
fn with_digit(n: u32, b: u8) -> Option<u32>
    ensures { Found result (λ m. Digit b × (m ≡ n * 10 + (b - 48)) × (m < 2 ^ 32)) }
{
    if !b.is_ascii_digit() {
        return None;
    }
    n.checked_mul(10)?.checked_add(u32::from(b - b'0'))
}

// The number that the word writes, or nothing where it is no number of 32 bits.
pub fn number(word: &[u8]) -> Option<u32>
    ensures { Found result (Numeral 32 word.now) }
{
    if word.is_empty() {
        return None;
    }
    let mut n = 0;
    for b in word {
        n = with_digit(n, *b)?;
    }
    Some(n)
}

// Whether the word is all digits.
fn all_digits(word: &[u8]) -> bool
    ensures { IsTrue result ↔ (AllByRecursion Digit word.now) }
{
    word.iter().all(|b| b.is_ascii_digit())
}

// Where the first place of that name stands.
fn first_named(word: &[u8], names: &[&[u8]]) -> Option<usize>
    ensures { result ≡ position (λ name. bytes_eq name.now word.now) names.now }
{
    names.iter().position(|name| *name == word)
}

// The number of the first place of that name.
fn named(word: &[u8], names: &[&[u8]]) -> Option<u32>
    ensures { Found result (Named (texts names.now) word.now) }
{
    u32::try_from(first_named(word, names)?).ok()
}

// The place that the word names, by its number or its name.
pub fn place(part: Part, word: &[u8], names: &[&[u8]]) -> Result<u32, Fault>
    ensures { Reads result (Place (texts names.now) word.now) }
{
    if all_digits(word) {
        return numeral(part, word);
    }
    named(word, names).ok_or(Fault::Name(part))
}

// The number that the word writes.
pub fn numeral(part: Part, word: &[u8]) -> Result<u32, Fault>
    ensures { Reads result (Numeral 32 word.now) }
{
    number(word).ok_or(Fault::Number(part))
}

// The mode that the word names. No `TryFrom`, since the enum is another crate's.
pub fn mode(word: &[u8]) -> Result<Mode, Fault>
    ensures { Reads result (λ m. word.now ≡ mode_text m) }
{
    match word {
        b"1+1" => Ok(Mode::OnePlusOne),
        b"1:1" => Ok(Mode::OneToOne),
        _ => Err(Fault::Mode),
    }
}
