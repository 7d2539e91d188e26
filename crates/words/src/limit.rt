// How the limit of an order is written, by each scale.
ghost use Rattle.std.specs.Prelude.{ℕ, List};
ghost use Rattle.words.specs.Figures.{Found, Numeral, FirstColon, TallyLimit, Single};
ghost use Rattle.words.specs.Decimals.{numeral_single};
ghost use Rattle.words.specs.Tallies.{tally_single};

use crate::figures::number;
use scale::{Scale, Tally, Total, Worst};
use std::fmt;

// What a limit of a scale looks like.
#[derive(Clone, Copy)]
pub enum Form {
    Number,
    CountAndTotal,
}

impl fmt::Display for Form {
    fn fmt<W: fmt::Write>(&self, f: &mut fmt::Formatter<W>) -> fmt::Result {
        f.write_str(match self {
            Form::Number => "number of 32 bits",
            Form::CountAndTotal => "COUNT:TOTAL, a number of 16 bits and one of 32 bits",
        })
    }
}

pub trait Limit: Scale {
    // The word spells the value.
    ghost spells: { List ℕ → Self.Value → Type 0 };

    // The value that the word spells, or nothing where it spells none.
    fn read_limit(word: &[u8]) -> Option<Self::Value>
        ensures { Found result (spells word.now) };

    // What is expected, for people.
    fn form() -> Form;

    // A word spells one value at most.
    ghost single: { Single spells };
}

// A scale whose values are numbers of 32 bits, and whose limits are written as one. The mark is this crate's own, since only
// so is it known that the tally has none.
pub trait OneNumber: Scale<Value = u32> {}

impl OneNumber for Total {}

impl OneNumber for Worst {}

impl<S: OneNumber> Limit for S {
    ghost spells = { Numeral 32 };

    ghost single = { numeral_single 32 };

    fn read_limit(word: &[u8]) -> Option<u32> {
        number(word)
    }

    fn form() -> Form {
        Form::Number
    }
}

// Where the first colon of the word stands.
fn colon(word: &[u8]) -> Option<usize>
    ensures { Found result (FirstColon word.now) }
{
    word.iter().position(|b| *b == b':')
}

// The number that the word writes, or nothing where it is no number of 16 bits.
fn small_number(word: &[u8]) -> Option<u16>
    ensures { Found result (Numeral 16 word.now) }
{
    u16::try_from(number(word)?).ok()
}

impl Limit for Tally {
    ghost spells = { TallyLimit };

    ghost single = { tally_single };

    fn read_limit(word: &[u8]) -> Option<(u16, u32)> {
        let i = colon(word)?;
        let count = small_number(&word[..i])?;
        let total = number(&word[i + 1..])?;
        Some((count, total))
    }

    fn form() -> Form {
        Form::CountAndTotal
    }
}
