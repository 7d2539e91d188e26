// The main route of an answer, and what is no route.
ghost use Rattle.std.specs.Prelude.{◌≡◌, ◌≤◌, length, MatchResult};
ghost use Rattle.network.specs.MainRoute.{shorter, Beyond};
ghost use Rattle.network.specs.Round.{RoundIsNoRoute};

use super::refusal::Refusal;

// The route of fewer circuits, the first where both hold as many, as a part of the caller's own list.
// A length beyond its list is refused. The lengths stand beside the lists, since a book writes routes to the start of its
// caller's lists, and answers how long they are.
pub fn main_route<'a>(
    first: &'a [u16],
    first_length: usize,
    second: &'a [u16],
    second_length: usize,
) -> Result<&'a [u16], Refusal>
    ensures { MatchResult result (λ route. (first_length ≤ length first.now) × (second_length ≤ length second.now) × (route.now ≡ shorter first.now first_length second.now second_length)) (λ e. (e ≡ Refusal.List) × Beyond first.now first_length second.now second_length) }
{
    let first = first.get(..first_length).ok_or(Refusal::List)?;
    let second = second.get(..second_length).ok_or(Refusal::List)?;
    if first.len() <= second.len() {
        Ok(first)
    } else {
        Ok(second)
    }
}

// A way that visits a place twice is no route.
pub fn round_is_no_route()
    ensures { RoundIsNoRoute }
{}
