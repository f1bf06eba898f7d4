// The tree, read node by node: a node reads its branches, first before second.
ghost use Rattle.std.specs.Prelude.{◌≡◌};
ghost use Rattle.lines.specs.Values.{meaning_in};
ghost use Rattle.reading.specs.Tree.{branch_count};
ghost use Rattle.reading.specs.Plan.{read_tree};
ghost use Rattle.reading.specs.inner.Working.{StandsIn, place_at, FreshState, beside, Grows, Branches};

use crate::Refusal;
use crate::cursor::{Cursor, past, refuse};
use limits::MOST_NODES;
use lines::scope::{Scope, enter};
use lines::{Head, Node, next_node};

// The nodes read so far, in an array with their number beside it, since memory is fixed.
#[derive(Clone, Copy)]
pub(crate) struct State {
    pub(crate) cursor: Cursor,
    pub(crate) count: usize,
    pub(crate) nodes: [Node; MOST_NODES],
}

// No node yet. Each section begins so, with fields of its own: they share the cursor alone.
pub(crate) fn fresh_state(cursor: Cursor) -> State
    ensures { FreshState cursor result }
{
    State {
        cursor,
        count: 0,
        nodes: [Node::Nil; MOST_NODES],
    }
}

// How many branches a node has.
pub fn branches_of(node: Node) -> u8
    ensures { result ≡ branch_count node }
{
    match node {
        Node::Nil => 0,
        Node::Sum | Node::Parallel => 2,
        _ => 1,
    }
}

// A tree more is read behind what was read before, of which `depth` may be used. The state is lent, since a copy for each depth would take much stack.
#[cycle(tree)]
pub(crate) fn read_node(
    text: &[u8],
    head: Head,
    scope: Scope,
    depth: usize,
    state: &mut State,
) -> Result<(), Refusal>
    requires { StandsIn text.now state.old.cursor }
    ensures { Grows text.now state.old.nodes state.old.count (read_tree depth head (meaning_in scope) state.old.count (place_at text.now state.old.cursor)) (beside result state.new) }
{
    let cursor = state.cursor;
    match next_node(text, cursor.at, depth, head, scope, state.count) {
        Err(reason) => Err(refuse(cursor, reason)),
        Ok(node) => {
            state.nodes[state.count] = node;
            state.count += 1;
            state.cursor = past(text, cursor);
            let inner = enter(scope, node);
            read_branches(text, head, inner, depth - 1, branches_of(node), state)
        }
    }
}

// So many branches more are read: none, one, or two, the second where the first ended. A number and no closure: document 01 has a node reader and a
// branch reader call each other.
#[cycle(tree)]
fn read_branches(
    text: &[u8],
    head: Head,
    scope: Scope,
    depth: usize,
    many: u8,
    state: &mut State,
) -> Result<(), Refusal>
    requires { StandsIn text.now state.old.cursor }
    ensures { Branches many text.now state.old (read_tree depth head (meaning_in scope)) (beside result state.new) }
{
    if many == 0 {
        return Ok(());
    }
    read_node(text, head, scope, depth, state)?;
    if many == 1 {
        return Ok(());
    }
    read_node(text, head, scope, depth, state)
}
