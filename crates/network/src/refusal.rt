// Why an order is declined: each reason has a number and a word.
ghost use Rattle.std.specs.Prelude.{◌≡◌, Some};
ghost use Rattle.network.specs.Refusals.{number_of, word_of, refusal_text, load_refusal_text};

use std::fmt;

#[derive(Clone, Copy, PartialEq, Eq, Debug)]
pub enum Refusal {
    Short = 1,
    Mark = 2,
    Name = 3,
    Order = 4,
    Ends = 5,
    Figure = 6,
    Full = 7,
    Tail = 8,
    Zero = 9,
    Taken = 10,
    Unknown = 11,
    Crowded = 12,
    Places = 13,
    Rate = 14,
    List = 15,
    NoPair = 16,
    Limit = 17,
    Mode = 18,
}

impl Refusal {
    // By this name, not `From`: the rules speak of a refusal's number and its word.
    pub fn number(self) -> u8
        ensures { result ≡ number_of self }
    {
        self as u8
    }

    pub fn word(self) -> &'static str
        ensures { result.now ≡ word_of self }
    {
        match self {
            Refusal::Short => "short",
            Refusal::Mark => "mark",
            Refusal::Name => "name",
            Refusal::Order => "order",
            Refusal::Ends => "ends",
            Refusal::Figure => "figure",
            Refusal::Full => "full",
            Refusal::Tail => "tail",
            Refusal::Zero => "zero",
            Refusal::Taken => "taken",
            Refusal::Unknown => "unknown",
            Refusal::Crowded => "crowded",
            Refusal::Places => "places",
            Refusal::Rate => "rate",
            Refusal::List => "list",
            Refusal::NoPair => "no pair",
            Refusal::Limit => "limit",
            Refusal::Mode => "mode",
        }
    }
}

impl fmt::Display for Refusal {
    // The number, a space and the word.
    ghost output = { λ r. Some (refusal_text r) };

    fn fmt<W: fmt::Write>(&self, f: &mut fmt::Formatter<W>) -> fmt::Result {
        let number = self.number();
        let word = self.word();
        write!(f, "{number} {word}")
    }
}

// A load that was refused: why, and where. In an image `at` is the byte offset at which the record's mark stands or
// should stand, in a table the record's number, from 0.
#[derive(Clone, Copy, PartialEq, Eq, Debug)]
pub struct LoadRefusal {
    pub refusal: Refusal,
    pub at: usize,
}

impl fmt::Display for LoadRefusal {
    // The refusal, and where it was.
    ghost output = { λ r. Some (load_refusal_text r.refusal r.at) };

    fn fmt<W: fmt::Write>(&self, f: &mut fmt::Formatter<W>) -> fmt::Result {
        let refusal = self.refusal;
        let at = self.at;
        write!(f, "{refusal} at {at}")
    }
}
