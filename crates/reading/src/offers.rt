// The offers, read one after the other up to the first line of a later section.
ghost use Rattle.std.specs.Prelude.{◌≡◌};
ghost use Rattle.text.specs.Positions.{rest_at};
ghost use Rattle.lines.specs.Promise.{HeadWithin};
ghost use Rattle.reading.specs.Plan.{read_offers};
ghost use Rattle.reading.specs.inner.Working.{StandsIn, FreshOffers, Lays};

use crate::Refusal;
use crate::cursor::{Cursor, past, refuse};
use limits::CHANNEL_SETS;
use lines::{Head, next_offer};
use sets::Set;

// The offers read so far in a row of sets by channel.
#[derive(Clone, Copy)]
pub(crate) struct Offers {
    pub(crate) cursor: Cursor,
    pub(crate) row: [Set; CHANNEL_SETS],
}

// No offer yet. Each section begins so, with fields of its own: they share the cursor alone.
pub(crate) fn fresh_offers(cursor: Cursor) -> Offers
    ensures { FreshOffers cursor result }
{
    Offers {
        cursor,
        row: [sets::empty(); CHANNEL_SETS],
    }
}

// What was read before, with the offers that stand here, on channels that are `least` or more. It calls itself as the definition does, up to a line that
// is none: nothing is counted.
pub(crate) fn read_offers(
    text: &[u8],
    head: Head,
    least: usize,
    state: Offers,
) -> Result<Offers, Refusal>
    requires { StandsIn text.now state.cursor × HeadWithin head }
    ensures { Lays text.now state (read_offers head least state.cursor.line (rest_at text.now state.cursor.at)) result }
{
    let cursor = state.cursor;
    match next_offer(text, cursor.at, head, least) {
        Err(reason) => Err(refuse(cursor, reason)),
        Ok(None) => Ok(state),
        Ok(Some(offer)) => {
            let channel = offer.channel as usize;
            let mut more = state;
            more.row[channel] = offer.set;
            more.cursor = past(text, cursor);
            read_offers(text, head, channel + 1, more)
        }
    }
}
