// Records that go by a number, and the look-up of one.
ghost use Rattle.std.specs.Prelude.{◌≡◌, ℕ, ◌<◌, ◌≢◌, length, MatchOption, slice_index_or};

use crate::rows::{Feed, Notice};

pub trait Numbered {
    // The number that a record goes by.
    ghost number_of: { Self → ℕ };

    fn number(&self) -> u32
        ensures { result ≡ number_of self.now };
}

impl Numbered for Feed {
    ghost number_of = { λ f. f.number };

    fn number(&self) -> u32 {
        self.number
    }
}

impl Numbered for Notice {
    ghost number_of = { λ x. x.number };

    fn number(&self) -> u32 {
        self.number
    }
}

// The place of the first record of that number, or nothing where no record has it.
pub fn find<T: Numbered>(records: &[T], number: u32) -> Option<usize>
    ensures { MatchOption result
        ((k : ℕ) (d : T) → k < length records.now → T.number_of (slice_index_or records.now k d) ≢ number)
        (λ i. (i < length records.now) × ((d : T) → T.number_of (slice_index_or records.now i d) ≡ number)
        × ((k : ℕ) (d : T) → k < i → T.number_of (slice_index_or records.now k d) ≢ number)) }
{
    records.iter().position(|record| record.number() == number)
}
