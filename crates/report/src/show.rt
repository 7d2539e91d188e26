// Answers as lines of text.
use calls::{Answer, Reply};
use scale::{Scale, Tally, Total, Worst};
use std::io::Write;
use std::{fmt, io};

// How a value of the scale is written. No `Display`, since a tally's value is a tuple, for which that is std's to write.
pub trait Printed: Scale {
    fn write_cost<W: Write>(cost: Self::Value, out: &mut W) -> io::Result<()>;
}

// A scale whose values are numbers of 32 bits. The mark is this crate's own, since only so is it known that the tally has
// none.
pub trait OneNumber: Scale<Value = u32> {}

impl OneNumber for Total {}

impl OneNumber for Worst {}

impl<S: OneNumber> Printed for S {
    fn write_cost<W: Write>(cost: u32, out: &mut W) -> io::Result<()> {
        write!(out, "{cost}")
    }
}

impl Printed for Tally {
    fn write_cost<W: Write>(cost: (u16, u32), out: &mut W) -> io::Result<()> {
        let (count, total) = cost;
        write!(out, "{count}:{total}")
    }
}

// A route, as circuit numbers with commas between.
#[derive(Clone, Copy)]
struct Route<'a>(&'a [u16]);

impl fmt::Display for Route<'_> {
    fn fmt<W: fmt::Write>(&self, f: &mut fmt::Formatter<W>) -> fmt::Result {
        let Some((first, rest)) = self.0.split_first() else {
            return Ok(());
        };
        write!(f, "{first}")?;
        for circuit in rest {
            write!(f, ",{circuit}")?;
        }
        Ok(())
    }
}

// One line for one answer.
pub fn write_answer<S: Printed, W: Write>(
    answer: &Answer<S::Value>,
    out: &mut W,
) -> io::Result<()> {
    match answer {
        Ok(
            Reply::Pair {
                rate,
                first,
                second,
                cost,
            },
        ) => {
            let first = Route(first);
            let second = Route(second);
            write!(out, "pair rate={rate} cost=")?;
            S::write_cost(*cost, out)?;
            writeln!(out, " first={first} second={second}")
        }
        Ok(Reply::Done) => writeln!(out, "done"),
        Ok(Reply::Left(left)) => writeln!(out, "left={left}"),
        Ok(Reply::Open(true)) => writeln!(out, "open=yes"),
        Ok(Reply::Open(false)) => writeln!(out, "open=no"),
        Ok(Reply::Uses(uses)) => writeln!(out, "uses={uses}"),
        Err(refusal) => writeln!(out, "refused {refusal}"),
    }
}
