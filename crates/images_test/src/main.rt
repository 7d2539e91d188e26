// Images of all kinds, and what a load says of each.
#![tactic(auto)]

use image::ImageRegister;
use network::{Circuit, Register};
use std::alloc::{AllocError, Global};
use std::io;

// The image of 26 bytes: places A and B, and one circuit.
static SMALL: [u8; 26] =
    *b"PL\x01APL\x01BCT\x00\x00\x00\x01\x00\x00\x00\x02\x00\x00\x00\x05EN\x00\x03";

fn load(rt: &HostRuntime, asked: &str, image: &[u8]) -> io::Result<()> {
    let mut register = ImageRegister::empty();
    match register.load(image) {
        Ok(()) => {
            let places = register.places();
            let circuits = register.circuits();
            println!(rt; "{asked}: {places} places, {circuits} circuits")
        }
        Err(refusal) => println!(rt; "{asked}: refused {refusal}"),
    }
}

fn put_place(image: &mut Vec<u8>, name: &[u8]) -> Result<(), AllocError> {
    image.extend_from_slice(b"PL")?;
    image.push((name.len() & 0xff) as u8)?;
    image.extend_from_slice(name)
}

fn put_circuit(image: &mut Vec<u8>, circuit: Circuit) -> Result<(), AllocError> {
    image.extend_from_slice(b"CT")?;
    image.extend_from_slice(&circuit.from.to_be_bytes())?;
    image.extend_from_slice(&circuit.to.to_be_bytes())?;
    image.extend_from_slice(&circuit.bandwidth.to_be_bytes())?;
    image.extend_from_slice(&circuit.cost.to_be_bytes())
}

fn put_end(image: &mut Vec<u8>, count: u16) -> Result<(), AllocError> {
    image.extend_from_slice(b"EN")?;
    image.extend_from_slice(&count.to_be_bytes())
}

// So many places, each by its number as a name of two bytes, and so many circuits.
fn full(heap: Global, places: u16, circuits: u16) -> Result<Vec<u8>, AllocError> {
    let mut image = Vec::new(heap);
    for place in 0..places {
        put_place(&mut image, &place.to_be_bytes())?;
    }
    for _ in 0..circuits {
        put_circuit(&mut image, Circuit::new(0, 1, 64_000_000, 1_000_000))?;
    }
    put_end(&mut image, places.wrapping_add(circuits))?;
    Ok(image)
}

// Places A and B, and one circuit.
fn one_circuit(heap: Global, circuit: Circuit) -> Result<Vec<u8>, AllocError> {
    let mut image = Vec::new(heap);
    put_place(&mut image, b"A")?;
    put_place(&mut image, b"B")?;
    put_circuit(&mut image, circuit)?;
    put_end(&mut image, 3)?;
    Ok(image)
}

fn one_place(heap: Global, name: &[u8]) -> Result<Vec<u8>, AllocError> {
    let mut image = Vec::new(heap);
    put_place(&mut image, name)?;
    put_end(&mut image, 1)?;
    Ok(image)
}

fn sizes(rt: &HostRuntime) -> anyhow::Result<()> {
    let heap = rt.alloc();
    load(rt, "the small image", &SMALL)?;
    load(rt, "no bytes", b"")?;
    load(rt, "an end record alone", b"EN\x00\x00")?;
    load(rt, "128 places, 384 circuits", &full(heap, 128, 384)?)?;
    load(rt, "129 places", &full(heap, 129, 0)?)?;
    load(rt, "385 circuits", &full(heap, 2, 385)?)?;
    Ok(())
}

fn cuts(rt: &HostRuntime) -> anyhow::Result<()> {
    for length in 0..SMALL.len() {
        print!(rt; "{length:2} ")?;
        load(rt, "bytes of the small image", &SMALL[..length])?;
    }
    Ok(())
}

fn names(rt: &HostRuntime) -> anyhow::Result<()> {
    let heap = rt.alloc();
    let cases: [(&str, &[u8]); 3] = [
        ("a name of 16 bytes", b"0123456789abcdef"),
        ("a name of 17 bytes", b"0123456789abcdefg"),
        ("a name of no bytes", b""),
    ];
    for (asked, name) in cases {
        load(rt, asked, &one_place(heap, name)?)?;
    }
    load(rt, "a name twice", b"PL\x01APL\x02ABPL\x01AEN\x00\x03")?;
    load(rt, "a name and its beginning", b"PL\x02ABPL\x01AEN\x00\x02")?;
    Ok(())
}

fn circuits(rt: &HostRuntime) -> anyhow::Result<()> {
    let heap = rt.alloc();
    let cases = [
        ("an end that is no place", Circuit::new(0, 2, 1, 0)),
        ("a start that is no place", Circuit::new(2, 0, 1, 0)),
        ("both ends the same", Circuit::new(1, 1, 1, 0)),
        ("bandwidth 0", Circuit::new(0, 1, 0, 0)),
        ("bandwidth 1, cost 0", Circuit::new(0, 1, 1, 0)),
        ("bandwidth 64,000,001", Circuit::new(0, 1, 64_000_001, 0)),
        ("cost 1,000,001", Circuit::new(0, 1, 1, 1_000_001)),
        ("bad ends and a bad figure", Circuit::new(5, 5, 0, 0)),
    ];
    for (asked, circuit) in cases {
        load(rt, asked, &one_circuit(heap, circuit)?)?;
    }
    Ok(())
}

fn order_and_tail(rt: &HostRuntime) -> anyhow::Result<()> {
    load(rt, "an unknown mark", b"PL\x01APX\x01B")?;
    load(
        rt,
        "a place after a circuit",
        b"PL\x01APL\x01BCT\x00\x00\x00\x01\x00\x00\x00\x02\x00\x00\x00\x05PL\x01CEN\x00\x04",
    )?;
    load(
        rt,
        "a circuit before any place",
        b"CT\x00\x00\x00\x01\x00\x00\x00\x02\x00\x00\x00\x05EN\x00\x01",
    )?;
    load(rt, "a count too small", b"PL\x01APL\x01BEN\x00\x01")?;
    load(rt, "a byte after the end", b"PL\x01AEN\x00\x01\x00")?;
    load(rt, "no end record", b"PL\x01APL\x01B")?;
    Ok(())
}

fn main(rt: HostRuntime) -> anyhow::Result<()> {
    sizes(&rt)?;
    cuts(&rt)?;
    names(&rt)?;
    circuits(&rt)?;
    order_and_tail(&rt)
}
