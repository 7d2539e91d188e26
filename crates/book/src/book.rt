// A book over any register and any scale, and its calls.
ghost use Rattle.std.specs.Prelude.{◌≡◌, [], ◌∷◌, MatchResult, length, IfOk};
ghost use Rattle.network.specs.Checks.{check};
ghost use Rattle.promise.specs.Ledger.{nothing_yet};
ghost use Rattle.promise.specs.Promise.{checks, BadPlaces, NoCircuit, act, tell, release, close, reopen, left as left_call, opens, uses as uses_call};
ghost use Rattle.tables.specs.Standing.{ledger_of, Keeps, Keeps-prop};
ghost use Rattle.calls.specs.Calls.{safest_call, widest_call, book_call};
ghost use Rattle.scale.specs.Measure.{AtMost};
ghost use Rattle.plan.specs.Planned.{SafestPlan};
ghost use Rattle.book.specs.Answered.{Answered, Checked, planned, ListsKept, acted, told_number, told_whether};

use crate::answer::Pair;
use crate::checks::{check_lists, check_rate, check_room, fresh, standing};
use crate::writing::write_pair;
use calls::Ask;
use network::{Refusal, Register};
use plan::{Plan, Question};
use promise::Mode;
use scale::Scale;
use std::alloc::{AllocError, Global};
use tables::{Feed, Notice, Tables};

// The tables are those of the register's network.
#[derive(Drop)]
pub struct Book<R: Register + Drop, S: Scale + Drop> {
    register: R,
    scale: S,
    tables: Tables,
    ghost keeps: { Keeps (R.network register) tables } by { Keeps-prop (R.network register) tables },
}

impl<R: Register + Drop, S: Scale + Drop> Book<R, S> {
    // No feeds, no notices, all circuits open, and on each the register's bandwidth left. Nothing else wants memory.
    pub fn new(heap: Global, register: R, scale: S) -> Result<Book<R, S>, AllocError>
        ensures { IfOk result (λ b. (b.register ≡ register) × (ledger_of b.tables ≡ nothing_yet)) }
    {
        let tables = Tables::new(heap, &register)?;
        Ok(Book {
            register,
            scale,
            tables,
        })
    }

    // The question for two routes between two places, which is asked of different places of the network alone.
    fn question(&self, from: u32, to: u32, mode: Mode) -> Result<Question<'_, R>, Refusal>
        ensures places { Checked (check 13 (BadPlaces (R.Register.network self.now.register) from to) ∷ []) result }
        ensures question { IfOk result (λ q. (q.register.now ≡ self.now.register) × (q.tables.now ≡ self.now.tables) × (q.from ≡ from) × (q.to ≡ to) × (q.mode ≡ mode)) }
    {
        let places = self.register.places() as u32;
        if from >= places || to >= places || from == to {
            return Err(Refusal::Places);
        }
        Ok(Question {
            register: &self.register,
            tables: &self.tables,
            from,
            to,
            mode,
        })
    }

    // A circuit of the network.
    fn check_circuit(&self, circuit: u32) -> Result<(), Refusal>
        ensures { Checked (check 11 (NoCircuit (R.Register.network self.now.register) circuit) ∷ []) result }
    {
        if circuit >= self.register.circuits() as u32 {
            return Err(Refusal::Unknown);
        }
        Ok(())
    }

    // A pair that carries the rate and has least shared cost, at the start of the two lists.
    pub fn safest(
        &self,
        ask: Ask,
        first: &mut [u16],
        second: &mut [u16],
    ) -> Result<Pair<S::Value>, Refusal>
        ensures right { Answered S.Scale.measure (R.Register.network self.now.register) self.now.tables self.now.tables (safest_call ask (length first.old) (length second.old)) (planned result first.new second.new) }
        ensures lists { ListsKept result first.old first.new second.old second.new }
    {
        let question = self.question(ask.from, ask.to, ask.mode)?;
        check_rate(ask.rate)?;
        check_lists(first, second)?;
        let plan = question.safest_at::<S>(ask.rate).ok_or(Refusal::NoPair)?;
        Ok(write_pair(ask.rate, &plan, first, second))
    }

    // The largest rate that a pair within the limit carries, and a safest pair at that rate.
    pub fn widest(
        &self,
        from: u32,
        to: u32,
        mode: Mode,
        limit: S::Value,
        first: &mut [u16],
        second: &mut [u16],
    ) -> Result<Pair<S::Value>, Refusal>
        ensures right { Answered S.Scale.measure (R.Register.network self.now.register) self.now.tables self.now.tables (widest_call from to mode limit (length first.old) (length second.old)) (planned result first.new second.new) }
        ensures lists { ListsKept result first.old first.new second.old second.new }
    {
        let question = self.question(from, to, mode)?;
        check_lists(first, second)?;
        let (rate, plan) = question.widest_within::<S>(limit)?;
        Ok(write_pair(rate, &plan, first, second))
    }

    // The plan of a feed that may be booked, if both lists have room for its routes.
    fn plan_feed(
        &self,
        feed: u32,
        ask: Ask,
        limit: S::Value,
        first: &[u16],
        second: &[u16],
    ) -> Result<Plan<S::Value>, Refusal>
        ensures checked { Checked (checks S.Scale.measure (R.Register.network self.now.register) (ledger_of self.now.tables) (book_call feed ask limit (length first.now) (length second.now))) result }
        ensures plan { IfOk result (λ p. SafestPlan S.Scale.measure (R.Register.network self.now.register) (ledger_of self.now.tables) ask.from ask.to ask.mode ask.rate p × AtMost S.Scale.measure p.cost limit) }
    {
        fresh(feed, self.tables.find_feed(feed))?;
        check_room(self.tables.feeds.len())?;
        let question = self.question(ask.from, ask.to, ask.mode)?;
        check_rate(ask.rate)?;
        check_lists(first, second)?;
        question.safest_within::<S>(ask.rate, limit)
    }

    // Answers as `safest` does, and takes bandwidth for the feed.
    pub fn book(
        &mut self,
        feed: u32,
        ask: Ask,
        limit: S::Value,
        first: &mut [u16],
        second: &mut [u16],
    ) -> Result<Pair<S::Value>, Refusal>
        ensures right { Answered S.Scale.measure (R.Register.network self.old.register) self.old.tables self.new.tables (book_call feed ask limit (length first.old) (length second.old)) (planned result first.new second.new) }
        ensures lists { ListsKept result first.old first.new second.old second.new }
        ensures kept { MatchResult result (λ _. self.new.register ≡ self.old.register) (λ _. self.new ≡ self.old) }
    {
        let plan = self.plan_feed(feed, ask, limit, first, second)?;
        self.tables.add(Feed {
            number: feed,
            from: ask.from,
            to: ask.to,
            rate: ask.rate,
            mode: ask.mode,
            first: plan.first,
            second: plan.second,
        });
        Ok(write_pair(ask.rate, &plan, first, second))
    }

    // Ends a feed, and returns what it took.
    pub fn release(&mut self, feed: u32) -> Result<(), Refusal>
        ensures right { Answered S.Scale.measure (R.Register.network self.old.register) self.old.tables self.new.tables (act (release feed)) (acted result) }
        ensures kept { MatchResult result (λ _. self.new.register ≡ self.old.register) (λ _. self.new ≡ self.old) }
    {
        let i = standing(feed, self.tables.find_feed(feed))?;
        self.tables.strike_feed(i);
        Ok(())
    }

    // A notice that its circuit is closed. Feeds keep their circuits.
    pub fn close(&mut self, notice: u32, circuit: u32) -> Result<(), Refusal>
        ensures right { Answered S.Scale.measure (R.Register.network self.old.register) self.old.tables self.new.tables (act (close notice circuit)) (acted result) }
        ensures kept { MatchResult result (λ _. self.new.register ≡ self.old.register) (λ _. self.new ≡ self.old) }
    {
        fresh(notice, self.tables.find_notice(notice))?;
        self.check_circuit(circuit)?;
        check_room(self.tables.notices.len())?;
        self.tables.note(Notice {
            number: notice,
            circuit,
        });
        Ok(())
    }

    // Ends a notice. Its circuit is open again where no other notice names it.
    pub fn reopen(&mut self, notice: u32) -> Result<(), Refusal>
        ensures right { Answered S.Scale.measure (R.Register.network self.old.register) self.old.tables self.new.tables (act (reopen notice)) (acted result) }
        ensures kept { MatchResult result (λ _. self.new.register ≡ self.old.register) (λ _. self.new ≡ self.old) }
    {
        let i = standing(notice, self.tables.find_notice(notice))?;
        self.tables.strike_notice(i);
        Ok(())
    }

    // The bandwidth left on a circuit.
    pub fn left(&self, circuit: u32) -> Result<u32, Refusal>
        ensures { Answered S.Scale.measure (R.Register.network self.now.register) self.now.tables self.now.tables (tell (left_call circuit)) (told_number result) }
    {
        self.tables.left(circuit).ok_or(Refusal::Unknown)
    }

    // Whether no standing notice names the circuit.
    pub fn is_open(&self, circuit: u32) -> Result<bool, Refusal>
        ensures { Answered S.Scale.measure (R.Register.network self.now.register) self.now.tables self.now.tables (tell (opens circuit)) (told_whether result) }
    {
        self.check_circuit(circuit)?;
        Ok(self.tables.is_open(circuit))
    }

    // How many routes of a standing feed use the circuit.
    pub fn uses(&self, feed: u32, circuit: u32) -> Result<u8, Refusal>
        ensures { Answered S.Scale.measure (R.Register.network self.now.register) self.now.tables self.now.tables (tell (uses_call feed circuit)) (told_number result) }
    {
        let i = standing(feed, self.tables.find_feed(feed))?;
        self.check_circuit(circuit)?;
        Ok(self.tables.uses(i, circuit))
    }
}
