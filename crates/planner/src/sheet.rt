// A sheet of orders: read line by line, played on a new book, and answered in order.
use calls::{Answer, Order};
use image::{ImageRegister, Record};
use orders::{Statement, read};
use report::{Chart, Last, Printed, write_answer};
use runs::run;
use scale::Scale;
use std::alloc::{AllocError, Global};
use std::io;
use std::io::Write;
use words::{Fault, Limit};

// What a line asks to be written. Its order, if it has one, stands in a list of its own, and nothing is kept of a blank line:
// a sheet may have very many.
#[derive(Clone, Copy)]
enum Item {
    Answer,
    Routes,
    Map,
    Fault { line: usize, fault: Fault },
}

// What the lines ask for, in their order, and the orders among them.
#[derive(Drop)]
struct Sheet<V> {
    items: Vec<Item>,
    orders: Vec<Order<V>>,
}

// The names of the places, lent from the image.
fn place_names<'a>(heap: Global, register: ImageRegister<'a>) -> Result<Vec<&'a [u8]>, AllocError> {
    register
        .records()
        .filter_map(|record| match record {
            Record::Place { name } => Some(name),
            _ => None,
        })
        .collect(heap)
}

fn read_sheet<S: Limit + Scale>(
    heap: Global,
    text: &[u8],
    names: &[&[u8]],
) -> Result<Sheet<S::Value>, AllocError> {
    let mut items = Vec::new(heap);
    let mut orders = Vec::new(heap);
    for (index, line) in text.split(|byte| *byte == b'\n').enumerate() {
        let item = match read::<S>(line, names) {
            Ok(Statement::Blank) => continue,
            Ok(Statement::Order(order)) => {
                orders.push(order)?;
                Item::Answer
            }
            Ok(Statement::Routes) => Item::Routes,
            Ok(Statement::Map) => Item::Map,
            Err(fault) => Item::Fault {
                line: index.saturating_add(1),
                fault,
            },
        };
        items.push(item)?;
    }
    Ok(Sheet { items, orders })
}

// Writes what comes of each line, with the orders' answers in turn.
fn write_sheet<S: Printed + Scale, W: Write>(
    chart: Chart<'_>,
    items: &[Item],
    answers: &[Answer<S::Value>],
    out: &mut W,
) -> io::Result<()> {
    let mut answers = answers.iter();
    let mut last = None;
    for item in items {
        match item {
            Item::Answer => {
                if let Some(answer) = answers.next() {
                    write_answer::<S, W>(answer, out)?;
                    last = Last::of(answer).or(last);
                }
            }
            Item::Routes => chart.write_routes(last, out)?,
            Item::Map => chart.write_map(last, out)?,
            Item::Fault { line, fault } => writeln!(out, "error line {line}: {fault}")?,
        }
    }
    Ok(())
}

// Plays the orders of the text on a new book over the register.
pub fn play<S: Printed + Limit + Scale + Drop, W: Write>(
    heap: Global,
    scale: S,
    register: ImageRegister<'_>,
    text: &[u8],
    out: &mut W,
) -> anyhow::Result<()> {
    let names = place_names(heap, register)?;
    let sheet = read_sheet::<S>(heap, text, &names)?;
    let answers = run(heap, register, scale, &sheet.orders)?;
    let chart = Chart {
        register: &register,
        names: &names,
    };
    write_sheet::<S, W>(chart, &sheet.items, &answers, out)?;
    Ok(())
}

// Lists the register by place names.
pub fn list<W: Write>(
    heap: Global,
    register: ImageRegister<'_>,
    out: &mut W,
) -> anyhow::Result<()> {
    let names = place_names(heap, register)?;
    let chart = Chart {
        register: &register,
        names: &names,
    };
    chart.write_list(out)?;
    Ok(())
}
