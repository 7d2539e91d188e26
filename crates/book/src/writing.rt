// Writes the routes of a plan to a caller's lists.
ghost use Rattle.std.specs.Prelude.{◌≡◌, ◌≤◌, ◌++◌, length, drop, Ok};
ghost use Rattle.promise.specs.Promise.{pair};
ghost use Rattle.tables.specs.Standing.{route_of};
ghost use Rattle.book.specs.Answered.{planned, ListsKept};

use crate::answer::Pair;
use plan::Plan;
use tables::Route;

// Writes the route to the start of the list, a caller's of any length from 127 on.
fn write_route(route: &Route, list: &mut [u16])
    requires { 127 ≤ length list.old }
    ensures { list.new ≡ route_of route.now ++ drop route.now.length list.old }
{
    list[..route.length].copy_from_slice(route.as_slice());
}

// Writes both routes, and tells the pair.
pub fn write_pair<V: Copy>(
    rate: u32,
    plan: &Plan<V>,
    first: &mut [u16],
    second: &mut [u16],
) -> Pair<V>
    requires first { 127 ≤ length first.old }
    requires second { 127 ≤ length second.old }
    ensures answer { planned (Ok result) first.new second.new ≡ pair rate (route_of plan.now.first) (route_of plan.now.second) plan.now.cost }
    ensures lists { ListsKept (Ok result) first.old first.new second.old second.new }
{
    write_route(&plan.first, first);
    write_route(&plan.second, second);
    Pair {
        rate,
        lengths: (plan.first.length, plan.second.length),
        cost: plan.cost,
    }
}
