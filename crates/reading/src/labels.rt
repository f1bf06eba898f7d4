// The labels, read one after the other up to the first line of a later section: a loop, since what it holds is large.
ghost use Rattle.std.specs.Prelude.{◌≡◌, []};
ghost use Rattle.text.specs.Positions.{rest_at};
ghost use Rattle.lines.specs.Labels.{bytes_of_label};
ghost use Rattle.lines.specs.Promise.{HeadWithin};
ghost use Rattle.reading.specs.Plan.{is_same, is_repeated, read_labels};
ghost use Rattle.reading.specs.inner.Working.{StandsIn, FreshLabels, Lists};

use crate::Refusal;
use crate::cursor::{Cursor, past, refuse};
use limits::MOST_LABELS;
use lines::labels::{no_label, place_among};
use lines::{Head, Label, Reason, next_label};

// The labels read so far in text order, with the smallest place that may have one now, in an array with their number beside it, since memory is fixed.
#[derive(Clone, Copy)]
pub(crate) struct Labels {
    pub(crate) cursor: Cursor,
    pub(crate) least: usize,
    pub(crate) count: usize,
    pub(crate) labels: [Label; MOST_LABELS],
}

// No label yet. Each section begins so, with fields of its own: they share the cursor alone.
pub(crate) fn fresh_labels(cursor: Cursor) -> Labels
    ensures { FreshLabels cursor result }
{
    Labels {
        cursor,
        least: 0,
        count: 0,
        labels: [no_label(); MOST_LABELS],
    }
}

// Whether two labels are of one kind and have the same bytes.
fn is_same(other: Label, label: Label) -> bool
    ensures { result ≡ is_same label.kind (bytes_of_label label) other }
{
    other.kind == label.kind && other.own_bytes() == label.own_bytes()
}

// Whether one of the labels before is of a label's kind and has its bytes.
fn is_repeated(before: &[Label], label: Label) -> bool
    ensures { result ≡ is_repeated label.kind (bytes_of_label label) before.now }
{
    for other in before {
        if is_same(*other, label) {
            return true;
        }
    }
    false
}

// The labels that stand here, where none was read before. A loop: it ends at a line, and counts nothing.
pub(crate) fn read_labels(text: &[u8], head: Head, start: Labels) -> Result<Labels, Refusal>
    requires { StandsIn text.now start.cursor × HeadWithin head × FreshLabels start.cursor start }
    ensures { Lists text.now (read_labels head 0 [] start.cursor.line (rest_at text.now start.cursor.at)) result }
{
    let mut state = start;
    loop {
        let cursor = state.cursor;
        match next_label(text, cursor.at, head, state.least) {
            Err(reason) => return Err(refuse(cursor, reason)),
            Ok(None) => return Ok(state),
            Ok(Some(label)) => {
                let count = state.count;
                if is_repeated(&state.labels[..count], label) {
                    return Err(refuse(cursor, Reason::RepeatedLabel));
                }
                state.labels[count] = label;
                state.count = count + 1;
                state.least = place_among(label.kind, label.number) + 1;
                state.cursor = past(text, cursor);
            }
        }
    }
}
