// Why a line is no statement. Where several reasons apply, any of them may be told.
use crate::limit::Form;
use crate::verbs::Verb;
use std::fmt;

// A word of an order by what it stands for.
#[derive(Clone, Copy)]
pub enum Part {
    From,
    To,
    Rate,
    Feed,
    Notice,
    Circuit,
}

impl fmt::Display for Part {
    fn fmt<W: fmt::Write>(&self, f: &mut fmt::Formatter<W>) -> fmt::Result {
        f.write_str(match self {
            Part::From => "FROM",
            Part::To => "TO",
            Part::Rate => "RATE",
            Part::Feed => "FEED",
            Part::Notice => "NOTICE",
            Part::Circuit => "CIRCUIT",
        })
    }
}

// What is wrong with the text of an order.
#[derive(Clone, Copy)]
pub enum Fault {
    // the first word is no verb
    Verb,
    // too few or too many words after the verb
    Words(Verb),
    // the word is no number of 32 bits
    Number(Part),
    // the word is not all digits, and no place has that name
    Name(Part),
    // the word is no mode
    Mode,
    // the word is no limit of the scale
    Limit(Form),
}

impl fmt::Display for Fault {
    fn fmt<W: fmt::Write>(&self, f: &mut fmt::Formatter<W>) -> fmt::Result {
        match self {
            Fault::Verb => f.write_str(
                "unknown verb, expected safest, widest, book, release, close, reopen, left, open, uses, routes or map",
            ),
            Fault::Words(verb) => write!(f, "{verb}"),
            Fault::Number(part) => write!(f, "{part} is no number of 32 bits"),
            Fault::Name(part) => write!(f, "{part} is no number, and no place has that name"),
            Fault::Mode => f.write_str("MODE is neither 1+1 nor 1:1"),
            Fault::Limit(form) => write!(f, "LIMIT is no {form}"),
        }
    }
}
