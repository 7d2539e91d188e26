// The first word of an order.
ghost use Rattle.std.specs.Prelude.{◌≡◌};
ghost use Rattle.words.specs.Figures.{Reads};
ghost use Rattle.words.specs.Verbs.{verb_text};

use crate::faults::Fault;
use std::fmt;

#[derive(Clone, Copy)]
pub enum Verb {
    Safest,
    Widest,
    Book,
    Release,
    Close,
    Reopen,
    Left,
    Open,
    Uses,
    Routes,
    Map,
}

// The verb that the word is.
impl TryFrom<&[u8]> for Verb {
    type Error = Fault;

    ghost try_from_gives = { λ word r. Reads r (λ v. word.now ≡ verb_text v) };

    fn try_from(word: &[u8]) -> Result<Self, Fault> {
        match word {
            b"safest" => Ok(Verb::Safest),
            b"widest" => Ok(Verb::Widest),
            b"book" => Ok(Verb::Book),
            b"release" => Ok(Verb::Release),
            b"close" => Ok(Verb::Close),
            b"reopen" => Ok(Verb::Reopen),
            b"left" => Ok(Verb::Left),
            b"open" => Ok(Verb::Open),
            b"uses" => Ok(Verb::Uses),
            b"routes" => Ok(Verb::Routes),
            b"map" => Ok(Verb::Map),
            _ => Err(Fault::Verb),
        }
    }
}

// The verb, and the words that it takes.
impl fmt::Display for Verb {
    fn fmt<W: fmt::Write>(&self, f: &mut fmt::Formatter<W>) -> fmt::Result {
        f.write_str(match self {
            Verb::Safest => "safest takes 4 words, FROM TO RATE MODE",
            Verb::Widest => "widest takes 4 words, FROM TO MODE LIMIT",
            Verb::Book => "book takes 6 words, FEED FROM TO RATE MODE LIMIT",
            Verb::Release => "release takes 1 word, FEED",
            Verb::Close => "close takes 2 words, NOTICE CIRCUIT",
            Verb::Reopen => "reopen takes 1 word, NOTICE",
            Verb::Left => "left takes 1 word, CIRCUIT",
            Verb::Open => "open takes 1 word, CIRCUIT",
            Verb::Uses => "uses takes 2 words, FEED CIRCUIT",
            Verb::Routes => "routes takes no words",
            Verb::Map => "map takes no words",
        })
    }
}
