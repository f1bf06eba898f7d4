// The free names, read one after the other.
ghost use Rattle.std.specs.Prelude.{◌≡◌, ◌+◌, ◌≤◌};
ghost use Rattle.limits.specs.Limits.{most_names};
ghost use Rattle.reading.specs.Plan.{read_names};
ghost use Rattle.reading.specs.inner.Working.{StandsIn, place_at, FreshNames, beside, Gathers};

use crate::Refusal;
use crate::cursor::{Cursor, past, refuse};
use limits::MOST_NAMES;
use lines::scope::{Scope, give, no_names};
use lines::{FreeName, Head, Marker, next_name};

// The free names read so far and the scope that they make, in an array with their number beside it, since memory is fixed.
#[derive(Clone, Copy)]
pub(crate) struct Names {
    pub(crate) cursor: Cursor,
    pub(crate) count: usize,
    pub(crate) names: [FreeName; MOST_NAMES],
    pub(crate) scope: Scope,
}

// No free name yet. Each section begins so, with fields of its own: they share the cursor alone.
pub(crate) fn fresh_names(cursor: Cursor) -> Names
    ensures { FreshNames cursor result }
{
    Names {
        cursor,
        count: 0,
        names: [FreeName::default(); MOST_NAMES],
        scope: no_names(),
    }
}

// As many free names more are read behind what was read before, each `least` or more. The state is lent, since a copy for each name would take much stack.
// It calls itself as the definition does: a loop would need an invariant that says the same.
pub(crate) fn read_names(
    text: &[u8],
    head: Head,
    many: usize,
    least: usize,
    state: &mut Names,
) -> Result<(), Refusal>
    requires { StandsIn text.now state.old.cursor × (state.old.count + many ≤ most_names) }
    ensures { Gathers text.now state.old (read_names many head least (place_at text.now state.old.cursor)) (beside result state.new) }
{
    if many == 0 {
        return Ok(());
    }
    let cursor = state.cursor;
    match next_name(text, cursor.at, head, least) {
        Err(reason) => Err(refuse(cursor, reason)),
        Ok(free) => {
            state.names[state.count] = free;
            state.scope = give(state.scope, free.name, Marker::Channel(free.channel));
            state.count += 1;
            state.cursor = past(text, cursor);
            read_names(text, head, many - 1, free.name as usize + 1, state)
        }
    }
}
