// What a node does by itself in a round: whether its clause asks the branches to hold, and what it wants included.
// `old` is the table as it was when the round began, and `new` the one that is added to: two parameters and no struct, so that `old` is lent shared.
ghost use Rattle.std.specs.Prelude.{◌<◌};
ghost use Rattle.limits.specs.Limits.{most_binders, levels};
ghost use Rattle.sets.specs.Set.{Decides};
ghost use Rattle.solving.specs.Clauses.{Some as SomeIn, Heard, Meets};
ghost use Rattle.solving.specs.Rounds.{SendWants, ReceiveWants, BracketWants};
ghost use Rattle.solving.specs.inner.Table.{in_table, MarkerFits, Adds};
ghost use Rattle.solving.specs.inner.Walk.{Able, Asked, Stepped};

use crate::table::{Table, gather, heard, ins_at, outs_at, set_of};
use lines::{Marker, Node};

// Send y on x: asks where S(x) and S(y) are both non-empty, and adds S(y) to out(level, c) for each c in S(x).
fn sending(x: Marker, y: Marker, level: u8, old: &Table, new: &mut Table) -> bool
    requires { MarkerFits x × MarkerFits y × (level < levels) }
    ensures { let s = in_table old.now in Asked (SomeIn s x × SomeIn s y) (SendWants s x y level) new.old result new.new }
{
    let from = set_of(x, old);
    let what = set_of(y, old);
    if sets::is_empty(from) || sets::is_empty(what) {
        return false;
    }
    sets::rows::spread(new, outs_at(level), from, what);
    true
}

// Receive on x with a binder: asks where anybody has sent on a channel of S(x), and adds for each c in S(x) what has been
// sent on it to in(level, c), and in(level, c) to the binder's set.
fn receiving(x: Marker, binder: u8, level: u8, old: &Table, new: &mut Table) -> bool
    requires { MarkerFits x × (binder < most_binders) × (level < levels) }
    ensures { let s = in_table old.now in Asked (Heard s x) (ReceiveWants s x binder level) new.old result new.new }
{
    let from = set_of(x, old);
    if !heard(old, from) {
        return false;
    }
    gather(new, level, from, old);
    let what = sets::rows::together(old, ins_at(level), from);
    sets::rows::join_at(new, binder as usize, what);
    true
}

// Match x = y: asks where S(x) and S(y) meet or the markers are the same.
fn matching(x: Marker, y: Marker, old: &Table) -> bool
    requires { MarkerFits x × MarkerFits y }
    ensures { Decides result (Meets (in_table old.now) x y) }
{
    x == y || sets::meets(set_of(x, old), set_of(y, old))
}

// Bracket with a level `inner` under `level`: adds in(inner, c) to in(level, c) and out(inner, c) to out(level, c) for every channel c.
fn bracketing(inner: u8, level: u8, old: &Table, new: &mut Table)
    requires { (inner < levels) × (level < levels) }
    ensures { Adds new.old new.new (BracketWants (in_table old.now) inner level) }
{
    let every = sets::every();
    sets::rows::merge(new, ins_at(level), old, ins_at(inner), every);
    sets::rows::merge(new, outs_at(level), old, outs_at(inner), every);
}

// The clause of a node at a level, one for each kind: the level of its branches, where it asks them to hold. A node that is not asked to hold itself has no
// level, and asks for nothing.
pub(crate) fn clause(node: Node, level: Option<u8>, old: &Table, new: &mut Table) -> Option<u8>
    requires { Able node level }
    ensures { Stepped node level old.now new.old result new.new }
{
    let level = level?;
    match node {
        Node::Send(x, y) => sending(x, y, level, old, new).then_some(level),
        Node::Receive(x, _, binder) => receiving(x, binder, level, old, new).then_some(level),
        Node::Match(x, y) => matching(x, y, old).then_some(level),
        Node::Bracket(inner) => {
            bracketing(inner, level, old, new);
            Some(inner)
        }
        Node::Nil
        | Node::Silent
        | Node::Sum
        | Node::Parallel
        | Node::Restriction(_, _)
        | Node::Replication => Some(level),
    }
}
