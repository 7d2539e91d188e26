// An order to a new book, answered into the output buffer.
ghost use Rattle.std.specs.Prelude.{◌≡◌, ◌<◌, ◌≤◌, length};
ghost use Rattle.promise.specs.Ledger.{nothing_yet};
ghost use Rattle.tables.specs.Standing.{ledger_of};
ghost use Rattle.host.specs.Entry.{Asked};
ghost use Rattle.host.specs.Status.{order_status};

use super::output::put_answer;
use book::Book;
use calls::Ask;
use network::{Refusal, Register};
use scale::Total;
use tables::MAX_ROUTE;

// The least output that is accepted: 8 bytes, and two for each circuit of two routes.
const OUTPUT_SIZE: usize = 516;

// How many circuits the lists get for a route. They get none where the output is short: the book then refuses them at
// that point in its own order of checks, before it looks for routes.
fn room_for(size: usize) -> usize
    ensures most { result ≤ 127 }
    ensures short { size < 516 → result < 127 }
    ensures long { 516 ≤ size → 127 ≤ result }
{
    if size < OUTPUT_SIZE { 0 } else { MAX_ROUTE }
}

// Asks with these lists, which have room for a pair just where the output has.
fn answer_by<R: Register + Drop>(
    book: &Book<R, Total>,
    ask: Ask,
    first: &mut [u16],
    second: &mut [u16],
    output: &mut [u8],
) -> Result<(), Refusal>
    requires unused { ledger_of book.now.tables ≡ nothing_yet }
    requires lists { length first.old ≡ length second.old }
    requires short { length output.old < 516 → length first.old < 127 }
    requires long { 516 ≤ length output.old → 127 ≤ length first.old }
    ensures { Asked (R.Register.network book.now.register) ask.from ask.to ask.rate ask.mode output.old output.new (order_status result) }
{
    let pair = book.safest(ask, first, second)?;
    let (n, m) = pair.lengths;
    put_answer(output, &first[0..n], &second[0..m], pair.cost);
    Ok(())
}

// Asks a new book for the safest pair, and writes it to the output.
pub fn answer<R: Register + Drop>(
    book: &Book<R, Total>,
    ask: Ask,
    output: &mut [u8],
) -> Result<(), Refusal>
    requires unused { ledger_of book.now.tables ≡ nothing_yet }
    ensures { Asked (R.Register.network book.now.register) ask.from ask.to ask.rate ask.mode output.old output.new (order_status result) }
{
    let room = room_for(output.len());
    // Room for the longest routes: only the book itself may want memory.
    let mut first = [0; MAX_ROUTE];
    let mut second = [0; MAX_ROUTE];
    answer_by(book, ask, &mut first[0..room], &mut second[0..room], output)
}
