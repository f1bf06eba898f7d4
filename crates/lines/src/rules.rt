// The rule of each frame over its bytes: the head (5, 6), a free name (7, 8), an offer (7, 8, 16), a node (7, 9). What a rule needs it takes as parameters,
// the head with `least` or the scope among them: a struct of them would be made anew for each line, and read no shorter. How
// long a frame is, by its row, is asked where its bytes are read: it is a fact of the text and a position in it.
ghost use Rattle.std.specs.Prelude.{◌≡◌, length};
ghost use Rattle.text.specs.Positions.{bytes_at};
ghost use Rattle.lines.specs.Rules.{outside_limits, head_of, head_in, name_rule, name_in, offer_rule, offer_in, pair_rule, receive_rule, restriction_rule, bracket_rule, node_in};
ghost use Rattle.lines.specs.Values.{meaning_in};
ghost use Rattle.lines.specs.inner.Working.{IsRow};

use crate::frames::{Frame, Kind, Section};
use crate::scope::{Scope, look_up};
use crate::{FreeName, Head, Marker, Node, Offer, Reason};
use limits::{HIGHEST_LEVEL, HIGHEST_NAME, MOST_BINDERS, MOST_CHANNELS, MOST_NAMES};
use sets::Set;
use text::byte_in;

const EDITION: u8 = 1;

// Whether C, B, k or F is outside its limits.
fn outside_limits(head: Head) -> bool
    ensures { result ≡ outside_limits head }
{
    head.channels == 0
        || MOST_CHANNELS < head.channels
        || MOST_BINDERS < head.binders
        || HIGHEST_LEVEL < head.top
        || MOST_NAMES < head.names as usize
}

// The numbers of a head, as they stand in the frame at `at`.
fn head_of(text: &[u8], at: usize) -> Head
    requires { length (bytes_at text.now at) ≡ 6 }
    ensures { result ≡ head_of (bytes_at text.now at) }
{
    Head {
        channels: byte_in(text, at, 2),
        binders: byte_in(text, at, 3),
        top: byte_in(text, at, 4),
        names: byte_in(text, at, 5),
    }
}

// The head in the frame at `at`.
pub(crate) fn head_in(text: &[u8], at: usize) -> Result<Head, Reason>
    requires { length (bytes_at text.now at) ≡ 6 }
    ensures { result ≡ head_in (bytes_at text.now at) }
{
    let head = head_of(text, at);
    if byte_in(text, at, 1) != EDITION {
        return Err(Reason::OtherEdition);
    }
    if outside_limits(head) {
        return Err(Reason::OutsideLimits);
    }
    Ok(head)
}

// A free name and its channel, where the name has to be `least` or more.
fn name_rule(head: Head, least: usize, name: u8, channel: u8) -> Result<FreeName, Reason>
    ensures { result ≡ name_rule head least name channel }
{
    if HIGHEST_NAME < name || head.channels <= channel {
        return Err(Reason::TooHigh);
    }
    if (name as usize) < least {
        return Err(Reason::NotAscending);
    }
    Ok(FreeName { name, channel })
}

// The free name in the frame at `at`.
pub(crate) fn name_in(text: &[u8], at: usize, head: Head, least: usize) -> Result<FreeName, Reason>
    requires { length (bytes_at text.now at) ≡ 3 }
    ensures { result ≡ name_in head least (bytes_at text.now at) }
{
    name_rule(head, least, byte_in(text, at, 1), byte_in(text, at, 2))
}

// An offer of handles on a channel, which has to be `least` or more.
fn offer_rule(head: Head, least: usize, channel: u8, set: Set) -> Result<Option<Offer>, Reason>
    ensures { result ≡ offer_rule head least channel set }
{
    if head.channels <= channel || !sets::is_narrow(set, head.channels) {
        return Err(Reason::TooHigh);
    }
    if (channel as usize) < least {
        return Err(Reason::NotAscending);
    }
    if sets::is_empty(set) {
        return Err(Reason::EmptyOffer);
    }
    Ok(Some(Offer { channel, set }))
}

// The offer in the frame at `at`, of which `frame` is the table's row; or none, where the frame is of a later section and the offers are over.
pub(crate) fn offer_in(
    text: &[u8],
    at: usize,
    frame: Frame,
    head: Head,
    least: usize,
) -> Result<Option<Offer>, Reason>
    requires { IsRow (bytes_at text.now at) frame }
    ensures { result ≡ offer_in head least frame (bytes_at text.now at) }
{
    if frame.section != Section::OfferLines {
        return Ok(None);
    }
    let set = sets::of_bytes(
        byte_in(text, at, 2),
        byte_in(text, at, 3),
        byte_in(text, at, 4),
        byte_in(text, at, 5),
    );
    offer_rule(head, least, byte_in(text, at, 1), set)
}

// The markers of two names that a node uses.
fn pair_rule(scope: Scope, x: u8, y: u8) -> Result<(Marker, Marker), Reason>
    ensures { result ≡ pair_rule (λ m n. (m, n)) (meaning_in scope) x y }
{
    if HIGHEST_NAME < x || HIGHEST_NAME < y {
        return Err(Reason::TooHigh);
    }
    let m = look_up(scope, x).ok_or(Reason::NoMeaning)?;
    let n = look_up(scope, y).ok_or(Reason::NoMeaning)?;
    Ok((m, n))
}

// A receive: x is looked up in the scope outside. Beside `pair_rule`: here the second name is bound, and not looked up.
fn receive_rule(head: Head, scope: Scope, x: u8, y: u8, binder: u8) -> Result<Node, Reason>
    ensures { result ≡ receive_rule head (meaning_in scope) x y binder }
{
    if HIGHEST_NAME < x || HIGHEST_NAME < y || head.binders <= binder {
        return Err(Reason::TooHigh);
    }
    let m = look_up(scope, x).ok_or(Reason::NoMeaning)?;
    Ok(Node::Receive(m, y, binder))
}

// A restriction of a name to a channel. `name_rule` makes these two tests as well: a function for them would be as long.
fn restriction_rule(head: Head, x: u8, channel: u8) -> Result<Node, Reason>
    ensures { result ≡ restriction_rule head x channel }
{
    if HIGHEST_NAME < x || head.channels <= channel {
        return Err(Reason::TooHigh);
    }
    Ok(Node::Restriction(x, channel))
}

// A bracket with a level.
fn bracket_rule(head: Head, level: u8) -> Result<Node, Reason>
    ensures { result ≡ bracket_rule head level }
{
    if head.top < level {
        return Err(Reason::TooHigh);
    }
    Ok(Node::Bracket(level))
}

// The node in the frame at `at`, of which `frame` is the table's row.
pub(crate) fn node_in(
    text: &[u8],
    at: usize,
    frame: Frame,
    head: Head,
    scope: Scope,
) -> Result<Node, Reason>
    requires { IsRow (bytes_at text.now at) frame }
    ensures { result ≡ node_in head (meaning_in scope) frame (bytes_at text.now at) }
{
    let Some(kind) = frame.kind else {
        return Err(Reason::NotAllowed);
    };
    match kind {
        Kind::Nil => Ok(Node::Nil),
        Kind::Silent => Ok(Node::Silent),
        Kind::Send => {
            let (x, y) = pair_rule(scope, byte_in(text, at, 1), byte_in(text, at, 2))?;
            Ok(Node::Send(x, y))
        }
        Kind::Receive => receive_rule(
            head,
            scope,
            byte_in(text, at, 1),
            byte_in(text, at, 2),
            byte_in(text, at, 3),
        ),
        Kind::Sum => Ok(Node::Sum),
        Kind::Parallel => Ok(Node::Parallel),
        Kind::Restriction => restriction_rule(head, byte_in(text, at, 1), byte_in(text, at, 2)),
        Kind::Match => {
            let (x, y) = pair_rule(scope, byte_in(text, at, 1), byte_in(text, at, 2))?;
            Ok(Node::Match(x, y))
        }
        Kind::Replication => Ok(Node::Replication),
        Kind::Bracket => bracket_rule(head, byte_in(text, at, 1)),
    }
}
