// Where reading stands in the text, and the refusal there.
ghost use Rattle.std.specs.Prelude.{◌≡◌, ◌<◌, length};
ghost use Rattle.text.specs.Positions.{end_at};
ghost use Rattle.lines.specs.Frames.{number_of};
ghost use Rattle.reading.specs.inner.Working.{StandsIn, Past};

use crate::Refusal;
use lines::Reason;
use text::line_end;

// The position of a line's start, and the line's number. That it stands in the text is asked of each function and is no type's: it is a fact of both, and
// the text is lent once to all.
#[derive(Clone, Copy)]
pub(crate) struct Cursor {
    pub(crate) at: usize,
    pub(crate) line: u16,
}

// One line on, where a line feed ends the line.
pub(crate) fn past(text: &[u8], cursor: Cursor) -> Cursor
    requires { StandsIn text.now cursor × (end_at text.now cursor.at < length text.now) }
    ensures { Past text.now cursor result × StandsIn text.now result }
{
    Cursor {
        at: line_end(text, cursor.at) + 1,
        line: cursor.line + 1,
    }
}

// The refusal for a reason, at the line where reading stands.
pub(crate) fn refuse(cursor: Cursor, reason: Reason) -> Refusal
    ensures { result ≡ record { number = number_of reason; line = cursor.line } }
{
    Refusal {
        number: reason.number(),
        line: cursor.line,
    }
}
