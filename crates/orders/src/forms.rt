// The forms of the statements: a verb, and the words after it.
ghost use Rattle.std.specs.Prelude.{◌≡◌, ℕ, []};
ghost use Rattle.calls.specs.declared.order.Order.{Order};
ghost use Rattle.words.specs.Figures.{Reads, texts};
ghost use Rattle.orders.specs.Meanings.{One, Two, Leads, Asks, SaidOne, SaidTwo, SaidSafest, SaidWidest, SaidBook, Said, Means};

use crate::statement::Statement;
use calls::{Ask, Order};
use words::{Fault, Limit, Part, Verb, mode, numeral, place};

// No words: they say the statement.
fn bare<V: Copy>(verb: Verb, args: &[&[u8]], said: Statement<V>) -> Result<Statement<V>, Fault>
    ensures { Reads result (λ s. (texts args.now ≡ []) × (s ≡ said)) }
{
    if args.is_empty() {
        Ok(said)
    } else {
        Err(Fault::Words(verb))
    }
}

// One number, of which an order is made.
fn one<V, F: FnOnce(u32) -> Order<V>>(
    verb: Verb,
    part: Part,
    args: &[&[u8]],
    make: F,
) -> Result<Statement<V>, Fault>
    requires { F.IsAlwaysCallable make }
    ensures { (order : ℕ → Order V) → ((n : ℕ) (o : Order V) → F.post make n o → o ≡ order n)
        → Reads result (SaidOne order (texts args.now)) }
{
    let [word] = args else {
        return Err(Fault::Words(verb));
    };
    let n = numeral(part, word)?;
    Ok(Statement::Order(make(n)))
}

// Two numbers, of which an order is made.
fn two<V, F: FnOnce(u32, u32) -> Order<V>>(
    verb: Verb,
    parts: (Part, Part),
    args: &[&[u8]],
    make: F,
) -> Result<Statement<V>, Fault>
    requires { F.IsAlwaysCallable make }
    ensures { (order : ℕ → ℕ → Order V) → ((a b : ℕ) (o : Order V) → F.post make a b o → o ≡ order a b)
        → Reads result (SaidTwo order (texts args.now)) }
{
    let [first, second] = args else {
        return Err(Fault::Words(verb));
    };
    let a = numeral(parts.0, first)?;
    let b = numeral(parts.1, second)?;
    Ok(Statement::Order(make(a, b)))
}

// FROM TO.
fn places(from: &[u8], to: &[u8], names: &[&[u8]]) -> Result<(u32, u32), Fault>
    ensures { Reads result (Leads (texts names.now) from.now to.now) }
{
    let first = place(Part::From, from, names)?;
    let second = place(Part::To, to, names)?;
    Ok((first, second))
}

// FROM TO RATE MODE.
fn asked(from: &[u8], to: &[u8], rate: &[u8], how: &[u8], names: &[&[u8]]) -> Result<Ask, Fault>
    ensures { Reads result (Asks (texts names.now) from.now to.now rate.now how.now) }
{
    let (from, to) = places(from, to, names)?;
    let rate = numeral(Part::Rate, rate)?;
    let mode = mode(how)?;
    Ok(Ask {
        from,
        to,
        rate,
        mode,
    })
}

// A limit, as the scale has it.
fn limited<S: Limit>(word: &[u8]) -> Result<S::Value, Fault>
    ensures { Reads result (S.Limit.spells word.now) }
{
    S::read_limit(word).ok_or(Fault::Limit(S::form()))
}

// FROM TO RATE MODE.
fn safest<S: Limit>(args: &[&[u8]], names: &[&[u8]]) -> Result<Statement<S::Value>, Fault>
    ensures { Reads result (SaidSafest S.Limit.spells (texts names.now) (texts args.now)) }
{
    let [from, to, rate, how] = args else {
        return Err(Fault::Words(Verb::Safest));
    };
    let ask = asked(from, to, rate, how, names)?;
    Ok(Statement::Order(Order::Safest(ask)))
}

// FROM TO MODE LIMIT.
fn widest<S: Limit>(args: &[&[u8]], names: &[&[u8]]) -> Result<Statement<S::Value>, Fault>
    ensures { Reads result (SaidWidest S.Limit.spells (texts names.now) (texts args.now)) }
{
    let [from, to, how, limit] = args else {
        return Err(Fault::Words(Verb::Widest));
    };
    let (from, to) = places(from, to, names)?;
    let mode = mode(how)?;
    let limit = limited::<S>(limit)?;
    Ok(Statement::Order(Order::Widest {
        from,
        to,
        mode,
        limit,
    }))
}

// FEED FROM TO RATE MODE LIMIT.
fn book<S: Limit>(args: &[&[u8]], names: &[&[u8]]) -> Result<Statement<S::Value>, Fault>
    ensures { Reads result (SaidBook S.Limit.spells (texts names.now) (texts args.now)) }
{
    let [feed, from, to, rate, how, limit] = args else {
        return Err(Fault::Words(Verb::Book));
    };
    let feed = numeral(Part::Feed, feed)?;
    let ask = asked(from, to, rate, how, names)?;
    let limit = limited::<S>(limit)?;
    Ok(Statement::Order(Order::Book { feed, ask, limit }))
}

// What the words after the verb say.
fn told<S: Limit>(verb: Verb, args: &[&[u8]], names: &[&[u8]]) -> Result<Statement<S::Value>, Fault>
    ensures { Reads result (Said S.Limit.spells (texts names.now) verb (texts args.now)) }
{
    match verb {
        Verb::Safest => safest::<S>(args, names),
        Verb::Widest => widest::<S>(args, names),
        Verb::Book => book::<S>(args, names),
        Verb::Release => one(verb, Part::Feed, args, |feed| Order::Release { feed }),
        Verb::Close => two(
            verb,
            (Part::Notice, Part::Circuit),
            args,
            |notice, circuit| Order::Close { notice, circuit },
        ),
        Verb::Reopen => one(verb, Part::Notice, args, |notice| Order::Reopen { notice }),
        Verb::Left => one(verb, Part::Circuit, args, |circuit| Order::Left { circuit }),
        Verb::Open => one(verb, Part::Circuit, args, |circuit| Order::Open { circuit }),
        Verb::Uses => two(
            verb,
            (Part::Feed, Part::Circuit),
            args,
            |feed, circuit| Order::Uses { feed, circuit },
        ),
        Verb::Routes => bare(verb, args, Statement::Routes),
        Verb::Map => bare(verb, args, Statement::Map),
    }
}

// What the words of a line say.
pub fn statement<S: Limit>(words: &[&[u8]], names: &[&[u8]]) -> Result<Statement<S::Value>, Fault>
    ensures { Reads result (Means S.Limit.spells (texts names.now) (texts words.now)) }
{
    let [verb, args @ ..] = words else {
        return Ok(Statement::Blank);
    };
    let verb = Verb::try_from(*verb)?;
    told::<S>(verb, args, names)
}
