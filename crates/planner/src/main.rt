// The planner: orders in, answers out, on a register image.
#![tactic(auto)]

mod sheet;
mod worked;

use anyhow::bail;
use image::ImageRegister;
use network::LoadRefusal;
use report::Printed;
use scale::{Scale, Tally, Total, Worst};
use std::io::{BufWriter, Read, Write};
use std::{env, fs};
use words::Limit;

const HELP: &str = "planner [SCALE [IMAGE]] < orders
planner list [IMAGE]

SCALE is total, worst or tally; total where none is given. IMAGE is a register
image; with none it is the worked network: 0 playout, 1 north, 2 south, 3 region.
One order a line; blank lines and what follows # are passed over. FROM and TO are
place numbers, or place names.

  safest FROM TO RATE MODE            a pair that shares least; MODE is 1+1 or 1:1
  widest FROM TO MODE LIMIT           the largest rate within a limit; by tally COUNT:TOTAL
  book FEED FROM TO RATE MODE LIMIT   as safest, and takes bandwidth
  release FEED                        ends a feed
  close NOTICE CIRCUIT                a notice that a circuit is closed
  reopen NOTICE                       ends a notice
  left CIRCUIT                        the bandwidth left on it
  open CIRCUIT                        whether no notice names it
  uses FEED CIRCUIT                   how many routes of the feed use it
  routes                              the last pair by place names
  map                                 the register and the last pair, for dot -Tsvg

An answer is one line: pair rate=R cost=C first=CIRCUITS second=CIRCUITS, done,
left=N, open=yes or no, uses=N, or refused NUMBER WORD; or error line N: what is
wrong with the text of the order. list prints the places and circuits by name.";

// The register that the image holds.
fn load(image: &[u8]) -> Result<ImageRegister<'_>, LoadRefusal> {
    let mut register = ImageRegister::empty();
    register.load(image)?;
    Ok(register)
}

// Plays the orders of the standard input by one scale.
fn serve<S: Printed + Limit + Scale + Drop>(
    rt: &HostRuntime,
    scale: S,
    register: ImageRegister<'_>,
) -> anyhow::Result<()> {
    let mut input = Vec::new(rt.alloc());
    rt.stdin().read_to_end(&mut input)?;
    let mut out = BufWriter::new(rt.alloc(), rt.stdout())?;
    sheet::play(rt.alloc(), scale, register, &input, &mut out)?;
    out.flush()?;
    Ok(())
}

fn list(rt: &HostRuntime, register: ImageRegister<'_>) -> anyhow::Result<()> {
    let mut out = BufWriter::new(rt.alloc(), rt.stdout())?;
    sheet::list(rt.alloc(), register, &mut out)?;
    out.flush()?;
    Ok(())
}

// Lists the image, or plays orders on it by the scale of that name.
fn by_name(rt: &HostRuntime, word: &str, image: &[u8]) -> anyhow::Result<()> {
    let register = match load(image) {
        Ok(register) => register,
        Err(refusal) => {
            println!(rt; "refused {refusal}")?;
            bail!("the image is refused");
        }
    };
    match word {
        "list" => list(rt, register),
        "total" => serve(rt, Total, register),
        "worst" => serve(rt, Worst, register),
        "tally" => serve(rt, Tally, register),
        _ => {
            eprintln!(rt; "planner: {word} is no scale, expected total, worst, tally or list")?;
            bail!("no such scale")
        }
    }
}

fn main(rt: HostRuntime) -> anyhow::Result<()> {
    let mut args = env::args(&rt)?.skip(1);
    let word = args.next();
    let word = word.as_deref().unwrap_or("total");
    if word == "--help" {
        println!(rt; "{HELP}")?;
        return Ok(());
    }
    let Some(path) = args.next() else {
        return by_name(&rt, word, &worked::IMAGE);
    };
    match fs::read(&rt, path.as_str()) {
        Ok(image) => by_name(&rt, word, &image),
        Err(error) => {
            eprintln!(rt; "planner: cannot read {path}: {error}")?;
            bail!("no image")
        }
    }
}
