// The worked network's lines that are run: a booking and what it leaves, notices, networks of one circuit, and an image
// with its damaged twin. The lines that are established over the definitions stand in the crate worked_lines.
#![tactic(auto)]

use anyhow::anyhow;
use book::{Book, Pair};
use calls::Ask;
use image::ImageRegister;
use network::{Circuit, Refusal, Register, TableRegister};
use promise::Mode;
use scale::Total;
use std::io;
use tables::MAX_ROUTE;

// The circuits of the worked network, between four places.
fn worked_circuits() -> [Circuit; 5] {
    [
        Circuit::new(0, 1, 40_000, 3),
        Circuit::new(0, 2, 30_000, 5),
        Circuit::new(1, 3, 20_000, 2),
        Circuit::new(2, 3, 50_000, 4),
        Circuit::new(1, 2, 25_000, 1),
    ]
}

// An answer that plans, by its rate, cost and routes.
fn tell(
    rt: &HostRuntime,
    asked: &str,
    answer: Result<Pair<u32>, Refusal>,
    first: &[u16],
    second: &[u16],
) -> io::Result<()> {
    match answer {
        Ok(pair) => {
            let rate = pair.rate;
            let cost = pair.cost;
            let (n, m) = pair.lengths;
            let (Some(first), Some(second)) = (first.get(..n), second.get(..m)) else {
                return Ok(());
            };
            println!(rt; "{asked}: rate {rate}, cost {cost}, routes {first:?} and {second:?}")
        }
        Err(refusal) => println!(rt; "{asked}: refused {refusal}"),
    }
}

fn tell_done(rt: &HostRuntime, asked: &str, answer: Result<(), Refusal>) -> io::Result<()> {
    match answer {
        Ok(()) => println!(rt; "{asked}: done"),
        Err(refusal) => println!(rt; "{asked}: refused {refusal}"),
    }
}

// The bandwidth left on each of the five circuits.
fn tell_left<R: Register + Drop>(rt: &HostRuntime, book: &Book<R, Total>) -> io::Result<()> {
    for circuit in 0..5u32 {
        match book.left(circuit) {
            Ok(left) => println!(rt; "  left on circuit {circuit}: {left}")?,
            Err(refusal) => println!(rt; "  left on circuit {circuit}: refused {refusal}")?,
        }
    }
    Ok(())
}

// Feed 7 and what it leaves; then two notices on circuit 3, of which one ends.
fn booking(rt: &HostRuntime) -> anyhow::Result<()> {
    let circuits = worked_circuits();
    let mut register = TableRegister::empty();
    register
        .load(4, &circuits)
        .map_err(|_| anyhow!("the worked network is refused"))?;
    let mut book = Book::new(rt.alloc(), register, Total)?;
    // The lists that the book writes to.
    let mut first = [0; MAX_ROUTE];
    let mut second = [0; MAX_ROUTE];
    let ask = Ask {
        from: 0,
        to: 3,
        rate: 20_000,
        mode: Mode::OneToOne,
    };
    let booked = book.book(7, ask, 0, &mut first, &mut second);
    tell(
        rt,
        "book feed 7 from 0 to 3, 20,000 in 1:1, limit 0",
        booked,
        &first,
        &second,
    )?;
    tell_left(rt, &book)?;
    tell_done(rt, "notice 1 closes circuit 3", book.close(1, 3))?;
    tell_done(rt, "notice 2 closes circuit 3", book.close(2, 3))?;
    tell_done(rt, "reopen 1", book.reopen(1))?;
    let ask = Ask { rate: 1, ..ask };
    let answer = book.safest(ask, &mut first, &mut second);
    tell(rt, "safest from 0 to 3, 1 in 1:1", answer, &first, &second)?;
    Ok(())
}

// The widest pair over one circuit, in 1+1 mode with its cost as the limit.
fn one_circuit(rt: &HostRuntime, asked: &str, bandwidth: u32) -> anyhow::Result<()> {
    let circuits = [Circuit::new(0, 1, bandwidth, 5)];
    let mut register = TableRegister::empty();
    register
        .load(2, &circuits)
        .map_err(|_| anyhow!("the network of one circuit is refused"))?;
    let book = Book::new(rt.alloc(), register, Total)?;
    let mut first = [0; MAX_ROUTE];
    let mut second = [0; MAX_ROUTE];
    let answer = book.widest(0, 1, Mode::OnePlusOne, 5, &mut first, &mut second);
    tell(rt, asked, answer, &first, &second)?;
    Ok(())
}

// What comes of a load.
fn load(rt: &HostRuntime, asked: &str, image: &[u8]) -> io::Result<()> {
    let mut register = ImageRegister::empty();
    match register.load(image) {
        Ok(()) => println!(rt; "{asked}: loads"),
        Err(refusal) => println!(rt; "{asked}: refused {refusal}"),
    }
}

fn main(rt: HostRuntime) -> anyhow::Result<()> {
    booking(&rt)?;
    one_circuit(
        &rt,
        "one circuit of bandwidth 1, widest in 1+1 within its cost",
        1,
    )?;
    one_circuit(
        &rt,
        "one circuit of bandwidth 7, widest in 1+1 within its cost",
        7,
    )?;
    load(
        &rt,
        "the image of 26 bytes",
        b"PL\x01APL\x01BCT\x00\x00\x00\x01\x00\x00\x00\x02\x00\x00\x00\x05EN\x00\x03",
    )?;
    load(
        &rt,
        "the same with end count 2",
        b"PL\x01APL\x01BCT\x00\x00\x00\x01\x00\x00\x00\x02\x00\x00\x00\x05EN\x00\x02",
    )?;
    Ok(())
}
