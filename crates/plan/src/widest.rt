// The widest rate at which a pair is within a limit.
ghost use Rattle.tables.specs.Standing.{Keeps, ledger_of};
ghost use Rattle.plan.specs.Planned.{SafestWithin, WidestWithin};

use crate::plan::Plan;
use crate::question::Question;
use network::{Refusal, Register};
use scale::Scale;

pub const MAX_RATE: u32 = 1_000_000;

// So many halvings leave nothing of the rates: 2^20 is more than a million.
const TURNS: u32 = 20;

impl<'a, R: Register> Question<'a, R> {
    // The safest pair at a rate, if it is within the limit.
    pub fn safest_within<S: Scale>(
        &self,
        rate: u32,
        limit: S::Value,
    ) -> Result<Plan<S::Value>, Refusal>
        ensures { Keeps (R.network self.now.register.now) self.now.tables.now → SafestWithin S.measure (R.network self.now.register.now) (ledger_of self.now.tables.now) self.now.from self.now.to self.now.mode rate limit result }
    {
        let limit = S::held(limit);
        let plan = self.safest_at::<S>(rate).ok_or(Refusal::NoPair)?;
        if S::at_most(plan.cost, limit) {
            Ok(plan)
        } else {
            Err(Refusal::Limit)
        }
    }

    // Whether a rate can be had within the limit is known of `low` and below, and of `high` and above. Each turn halves the
    // rates between them, so that twenty leave none; the turns are counted, so that the loop shows how many searches it makes.
    pub fn widest_within<S: Scale>(&self, limit: S::Value) -> Result<(u32, Plan<S::Value>), Refusal>
        ensures { Keeps (R.network self.now.register.now) self.now.tables.now → WidestWithin S.measure (R.network self.now.register.now) (ledger_of self.now.tables.now) self.now.from self.now.to self.now.mode limit result }
    {
        let mut low = 0;
        let mut high = MAX_RATE + 1;
        let mut found = Err(Refusal::NoPair);
        for _ in 0..TURNS {
            if high - low == 1 {
                break;
            }
            let rate = (low + high) / 2;
            match self.safest_within::<S>(rate, limit) {
                Ok(plan) => {
                    low = rate;
                    found = Ok((rate, plan));
                }
                Err(why) => {
                    high = rate;
                    found = found.or(Err(why));
                }
            }
        }
        found
    }
}
