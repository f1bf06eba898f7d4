// The walk of a round over the nodes in prefix order: a node and then its branches, with the depth that is left falling.
ghost use Rattle.solving.specs.inner.Walk.{Ready, Walked};

use crate::clauses::clause;
use crate::table::Table;
use limits::MOST_NODES;
use lines::Node;
use reading::branches_of;

// Walks the tree whose root stands at `at`, adds what it wants if it has a level, and says where it ends.
#[cycle(walk)]
pub(crate) fn walk_node(
    depth: usize,
    nodes: &[Node; MOST_NODES],
    at: usize,
    level: Option<u8>,
    old: &Table,
    new: &mut Table,
) -> usize
    requires { Ready depth nodes.now at level 1 }
    ensures { Walked nodes.now at level 1 old.now new.old result new.new }
{
    let node = nodes[at];
    let inner = clause(node, level, old, new);
    walk_branches(depth - 1, nodes, at + 1, inner, branches_of(node), old, new)
}

// Walks so many branches, the first at `at` and each other where the one before ends, and says where the last ends.
#[cycle(walk)]
fn walk_branches(
    depth: usize,
    nodes: &[Node; MOST_NODES],
    at: usize,
    level: Option<u8>,
    branches: u8,
    old: &Table,
    new: &mut Table,
) -> usize
    requires { Ready depth nodes.now at level branches }
    ensures { Walked nodes.now at level branches old.now new.old result new.new }
{
    let mut next = at;
    for _ in 0..branches {
        next = walk_node(depth, nodes, next, level, old, new);
    }
    next
}
