// Rounds from empty sets, up to the first that adds nothing or to the end of the allowance.
ghost use Rattle.solving.specs.inner.Walk.{IsPlan, Rounded, Settles};

use crate::Solution;
use crate::table::{Table, empty, outs_at, solution_of};
use crate::walk::walk_node;
use limits::{CHANNEL_SETS, MOST_DEPTH, MOST_NODES, OUTERMOST};
use lines::Node;
use sets::Set;

// The table after one round more: everything that the walk from the root wants is added, and the offers too; every set is read as it was.
fn round(nodes: &[Node; MOST_NODES], offers: &[Set; CHANNEL_SETS], old: &Table) -> Table
    requires { IsPlan nodes.now }
    ensures { Rounded nodes.now offers.now old.now result }
{
    let mut new = *old;
    walk_node(MOST_DEPTH, nodes, 0, Some(OUTERMOST), old, &mut new);
    sets::rows::merge(&mut new, outs_at(OUTERMOST), offers, 0, sets::every());
    new
}

// The count of the plan with these nodes and these offers and its least acceptable solution, if the count is within the allowance.
pub(crate) fn settle(
    nodes: &[Node; MOST_NODES],
    offers: &[Set; CHANNEL_SETS],
    allowance: u16,
) -> Option<(u16, Solution)>
    requires { IsPlan nodes.now }
    ensures { Settles nodes.now offers.now allowance result }
{
    let mut table = empty();
    for count in 1..=allowance {
        let next = round(nodes, offers, &table);
        if sets::rows::same(&next, &table) {
            return Some((count, solution_of(&table)));
        }
        table = next;
    }
    None
}
