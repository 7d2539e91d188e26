// The last pair by place names, and the register as a list and as a drawing.
use calls::{Answer, Reply};
use image::ImageRegister;
use network::{Circuit, Circuits, Register};
use std::io::Write;
use std::{io, str};

// The routes of the last pair that was answered.
#[derive(Clone, Copy)]
pub struct Last<'a> {
    first: &'a [u16],
    second: &'a [u16],
}

impl<'a> Last<'a> {
    // The routes of the answer, where it is a pair.
    pub fn of<V>(answer: &'a Answer<V>) -> Option<Last<'a>> {
        match answer {
            Ok(Reply::Pair { first, second, .. }) => Some(Last { first, second }),
            _ => None,
        }
    }

    fn shares(self, circuit: u16) -> bool {
        self.first.contains(&circuit) && self.second.contains(&circuit)
    }

    // How a circuit is drawn.
    fn colour(self, circuit: u16) -> &'static str {
        match (
            self.first.contains(&circuit),
            self.second.contains(&circuit),
        ) {
            (true, true) => "red, penwidth=3",
            (true, false) => "blue, penwidth=2",
            (false, true) => "darkorange, penwidth=2",
            (false, false) => "gray",
        }
    }
}

// Whether a drawing takes the byte of a name as it is.
fn is_plain(byte: u8) -> bool {
    (b' '..=b'~').contains(&byte) && byte != b'"' && byte != b'\\'
}

// The most bytes that an image gives a name.
const LONGEST_NAME: usize = 16;

// A part of a name as it is written: a question mark stands for what a drawing would take for its own, and for each byte that is
// not of ASCII where the name is no text.
fn shown(part: &[u8], is_text: bool) -> [u8; LONGEST_NAME] {
    let mut shown = [b'?'; LONGEST_NAME];
    for (shown, byte) in shown.iter_mut().zip(part) {
        if is_plain(*byte) || is_text && !byte.is_ascii() {
            *shown = *byte;
        }
    }
    shown
}

// Writes a name that is not plain. In parts as long as an image's longest name, since a sheet may write names often.
fn write_mixed<W: Write>(name: &[u8], out: &mut W) -> io::Result<()> {
    let is_text = str::from_utf8(name).is_ok();
    for part in name.chunks(LONGEST_NAME) {
        let shown = shown(part, is_text);
        out.write_all(shown.get(..part.len()).unwrap_or(&shown))?;
    }
    Ok(())
}

// Writes a name as text. Straight out, and not by a `Display`, with which a sheet of routes took up to twice the time.
fn write_name<W: Write>(name: &[u8], out: &mut W) -> io::Result<()> {
    if name.iter().all(|byte| is_plain(*byte)) {
        out.write_all(name)
    } else {
        write_mixed(name, out)
    }
}

// A register, and the names of its places.
#[derive(Clone, Copy)]
pub struct Chart<'a> {
    pub register: &'a ImageRegister<'a>,
    pub names: &'a [&'a [u8]],
}

impl<'a> Chart<'a> {
    // Writes the name of a place; nothing for a place without one.
    fn write_place<W: Write>(self, place: u16, out: &mut W) -> io::Result<()> {
        self.names
            .get(usize::from(place))
            .map_or(Ok(()), |name| write_name(name, out))
    }

    // The circuit of that number, beside its number.
    fn numbered(self, number: u16) -> Option<(u16, Circuit)> {
        Some((number, self.register.circuit(u32::from(number))?))
    }

    // One route by place names; = stands for a shared circuit. Written straight out, as the lists and charts below: for
    // `Display` each would want a struct of its arguments.
    fn write_route<W: Write>(self, last: Last<'_>, route: &[u16], out: &mut W) -> io::Result<()> {
        let mut legs = route
            .iter()
            .filter_map(|number| self.numbered(*number))
            .peekable();
        if let Some((_, circuit)) = legs.peek() {
            self.write_place(circuit.from, out)?;
        }
        for (number, circuit) in legs {
            out.write_all(if last.shares(number) { b" = " } else { b" > " })?;
            self.write_place(circuit.to, out)?;
        }
        writeln!(out)
    }

    // The last pair by place names, and each circuit that it shares.
    pub fn write_routes<W: Write>(self, last: Option<Last<'_>>, out: &mut W) -> io::Result<()> {
        let Some(last) = last.filter(|last| !last.first.is_empty()) else {
            return writeln!(out, "no pair yet");
        };
        write!(out, "first:  ")?;
        self.write_route(last, last.first, out)?;
        write!(out, "second: ")?;
        self.write_route(last, last.second, out)?;
        let legs = last
            .first
            .iter()
            .filter_map(|number| self.numbered(*number));
        for (number, circuit) in legs.filter(|(number, _)| last.shares(*number)) {
            write!(out, "shared: circuit {number}, ")?;
            self.write_place(circuit.from, out)?;
            write!(out, " = ")?;
            self.write_place(circuit.to, out)?;
            let cost = circuit.cost;
            writeln!(out, ", cost {cost}")?;
        }
        Ok(())
    }

    // The register for Graphviz: the first route blue, the second orange, what they share red.
    pub fn write_map<W: Write>(self, last: Option<Last<'_>>, out: &mut W) -> io::Result<()> {
        writeln!(out, "digraph register {{")?;
        writeln!(out, "  rankdir=LR;")?;
        for place in 0..self.register.places() {
            write!(out, "  p{place} [label=\"")?;
            self.write_place(place, out)?;
            writeln!(out, "\"];")?;
        }
        self.write_arrows(last, out)?;
        writeln!(out, "}}")
    }

    fn write_arrows<W: Write>(self, last: Option<Last<'_>>, out: &mut W) -> io::Result<()> {
        for (number, circuit) in (0..self.register.circuits()).zip(Circuits::of(self.register)) {
            let colour = last.map_or("gray", |last| last.colour(number));
            let Circuit {
                from,
                to,
                bandwidth,
                cost,
            } = circuit;
            writeln!(
                out,
                "  p{from} -> p{to} [label=\"{number}: {bandwidth} / {cost}\", color={colour}];"
            )?;
        }
        Ok(())
    }

    // The register as a list: each place, then each circuit by place names.
    pub fn write_list<W: Write>(self, out: &mut W) -> io::Result<()> {
        for place in 0..self.register.places() {
            write!(out, "place {place}: ")?;
            self.write_place(place, out)?;
            writeln!(out)?;
        }
        self.write_circuits(out)
    }

    fn write_circuits<W: Write>(self, out: &mut W) -> io::Result<()> {
        for (number, circuit) in (0..self.register.circuits()).zip(Circuits::of(self.register)) {
            write!(out, "circuit {number}: ")?;
            self.write_place(circuit.from, out)?;
            write!(out, " > ")?;
            self.write_place(circuit.to, out)?;
            let bandwidth = circuit.bandwidth;
            let cost = circuit.cost;
            writeln!(out, ", bandwidth {bandwidth}, cost {cost}")?;
        }
        Ok(())
    }
}
