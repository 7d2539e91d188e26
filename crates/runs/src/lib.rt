// A list of orders, played on a new book.
#![tactic(auto)]

ghost use Rattle.std.specs.Prelude.{◌≡◌, ◌≤◌, length, IfOk, IfErr, Ok, Err, vec_len};
ghost use Rattle.promise.specs.Promise.{Run};
ghost use Rattle.book.specs.Answered.{Answered, planned};
ghost use Rattle.calls.specs.Calls.{call_of, answer_of, entries};
ghost use Rattle.runs.specs.Stops.{IfRefused};

mod stop;

use book::{Book, Pair};
use calls::{Answer, Order, Reply};
use network::Register;
use scale::Scale;
use std::alloc::{AllocError, Global};
use stop::Stop;
use tables::MAX_ROUTE;

// The pair that was planned, with its routes out of the two lists.
fn owned<V: Copy>(
    heap: Global,
    pair: Pair<V>,
    first: &[u16],
    second: &[u16],
) -> Result<Reply<V>, AllocError>
    requires first { pair.lengths.0 ≤ length first.now }
    requires second { pair.lengths.1 ≤ length second.now }
    ensures { IfOk result (λ reply. answer_of (Ok reply) ≡ planned (Ok pair) first.now second.now) }
{
    let (n, m) = pair.lengths;
    let first = first[..n].to_vec(heap)?;
    let second = second[..m].to_vec(heap)?;
    Ok(Reply::Pair {
        rate: pair.rate,
        first,
        second,
        cost: pair.cost,
    })
}

// Plays one order.
fn play<R: Register + Drop, S: Scale + Drop>(
    heap: Global,
    book: &mut Book<R, S>,
    order: Order<S::Value>,
) -> Result<Reply<S::Value>, Stop>
    ensures register { book.new.register ≡ book.old.register }
    ensures told { IfOk result (λ reply. Answered S.Scale.measure (R.Register.network book.old.register) book.old.tables book.new.tables (call_of order) (answer_of (Ok reply))) }
    ensures refused { IfErr result (λ stop. IfRefused stop (λ refusal. Answered S.Scale.measure (R.Register.network book.old.register) book.old.tables book.new.tables (call_of order) (answer_of (Err refusal)))) }
{
    // The lists that a call on a book writes to: no such call may want memory.
    let mut first = [0; MAX_ROUTE];
    let mut second = [0; MAX_ROUTE];
    match order {
        Order::Safest(ask) => {
            let pair = book.safest(ask, &mut first, &mut second)?;
            Ok(owned(heap, pair, &first, &second)?)
        }
        Order::Widest {
            from,
            to,
            mode,
            limit,
        } => {
            let pair = book.widest(from, to, mode, limit, &mut first, &mut second)?;
            Ok(owned(heap, pair, &first, &second)?)
        }
        Order::Book { feed, ask, limit } => {
            let pair = book.book(feed, ask, limit, &mut first, &mut second)?;
            Ok(owned(heap, pair, &first, &second)?)
        }
        Order::Release { feed } => {
            book.release(feed)?;
            Ok(Reply::Done)
        }
        Order::Close { notice, circuit } => {
            book.close(notice, circuit)?;
            Ok(Reply::Done)
        }
        Order::Reopen { notice } => {
            book.reopen(notice)?;
            Ok(Reply::Done)
        }
        Order::Left { circuit } => Ok(Reply::Left(book.left(circuit)?)),
        Order::Open { circuit } => Ok(Reply::Open(book.is_open(circuit)?)),
        Order::Uses { feed, circuit } => Ok(Reply::Uses(book.uses(feed, circuit)?)),
    }
}

// Plays the orders, one after the other, on a new book over the register, and tells all answers. Want of memory ends the
// run with no answers.
pub fn run<R: Register + Drop, S: Scale + Drop>(
    heap: Global,
    register: R,
    scale: S,
    orders: &[Order<S::Value>],
) -> Result<Vec<Answer<S::Value>>, AllocError>
    ensures { IfOk result (λ v. (vec_len v ≡ length orders.now) × Run S.Scale.measure (R.Register.network register) (entries orders.now v.items)) }
{
    let mut book = Book::new(heap, register, scale)?;
    let mut answers = Vec::with_capacity(heap, orders.len())?;
    for order in orders {
        let answer = match play(heap, &mut book, *order) {
            Ok(reply) => Ok(reply),
            Err(Stop::Refused(refusal)) => Err(refusal),
            Err(Stop::NoMemory(error)) => return Err(error),
        };
        answers.push(answer)?;
    }
    Ok(answers)
}
