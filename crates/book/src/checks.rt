// The checks of a call: each refuses, or says what may be relied on from there.
ghost use Rattle.std.specs.Prelude.{◌≡◌, ◌<◌, ◌≤◌, ◌⊎◌, [], ◌∷◌, Some, IsSome, IsNone, MatchResult, ◌≢◌, length};
ghost use Rattle.network.specs.Refusals.{number_of};
ghost use Rattle.network.specs.Checks.{check, First};
ghost use Rattle.promise.specs.Promise.{BadRate};
ghost use Rattle.book.specs.Answered.{Checked};

use network::Refusal;
use plan::MAX_RATE;
use tables::{MAX_ROUTE, MAX_STANDING};

// A rate that may be asked for.
pub fn check_rate(rate: u32) -> Result<(), Refusal>
    ensures { Checked (check 14 (BadRate rate) ∷ []) result }
{
    if rate == 0 || rate > MAX_RATE {
        return Err(Refusal::Rate);
    }
    Ok(())
}

// Two lists that have room for any route.
pub fn check_lists(first: &[u16], second: &[u16]) -> Result<(), Refusal>
    ensures { Checked (check 15 ((length first.now < 127) ⊎ (length second.now < 127)) ∷ []) result }
{
    if first.len() < MAX_ROUTE || second.len() < MAX_ROUTE {
        return Err(Refusal::List);
    }
    Ok(())
}

// A number, which is never 0, under which nothing stands.
pub fn fresh(number: u32, place: Option<usize>) -> Result<(), Refusal>
    ensures { Checked (check 9 (number ≡ 0) ∷ check 10 (IsSome place) ∷ []) result }
{
    if number == 0 {
        return Err(Refusal::Zero);
    }
    if place.is_some() {
        return Err(Refusal::Taken);
    }
    Ok(())
}

// The place of what stands under a number, which is never 0.
pub fn standing(number: u32, place: Option<usize>) -> Result<usize, Refusal>
    ensures { MatchResult result (λ i. (number ≢ 0) × (place ≡ Some i)) (λ e. First (number_of e) (check 9 (number ≡ 0) ∷ check 11 (IsNone place) ∷ [])) }
{
    if number == 0 {
        return Err(Refusal::Zero);
    }
    place.ok_or(Refusal::Unknown)
}

// Room for one record more.
pub fn check_room(standing: usize) -> Result<(), Refusal>
    ensures { Checked (check 12 (32 ≤ standing) ∷ []) result }
{
    if standing >= MAX_STANDING {
        return Err(Refusal::Crowded);
    }
    Ok(())
}
