// The place in its line of the byte that a refusal speaks of, from 1, and 0 where it speaks of none. It is said beside the refusal's number, from the line
// as it stands: what decides the number, the crate `lines`, stands below and knows nothing of it. Proved: the place is the one that document 02's order 3
// gives, for every line and every number. A line is named by the text and its position, as the operations of the crate `text` take it.
#![tactic(auto)]

ghost use Rattle.std.specs.Prelude.{◌≡◌};
ghost use Rattle.sets.specs.Set.{set_of_bytes};
ghost use Rattle.text.specs.Positions.{bytes_at, rest_at};
ghost use Rattle.lines.specs.Rules.{head_of};
ghost use Rattle.lines.specs.Values.{meaning_in};
ghost use Rattle.byte_places.specs.BytePlaces.{first_fault, limit_faults, naming_faults, is_wide, offer_faults, section_faults, node_faults, frame_faults, frame_unmeant, byte_place};

use limits::{HIGHEST_LEVEL, HIGHEST_NAME, MOST_BINDERS, MOST_CHANNELS, MOST_NAMES};
use lines::frames::{Frame, Kind, Section, frame_of};
use lines::labels::{LEVEL, is_thing};
use lines::scope::{Scope, look_up};
use lines::{Head, Reason};
use text::{bad_pair, byte_or_zero};

// The documents' numbers of the refusals that speak of a byte.
const FAULTY_LINE: u8 = Reason::FaultyLine as u8;

const NOT_ALLOWED: u8 = Reason::NotAllowed as u8;

const OTHER_EDITION: u8 = Reason::OtherEdition as u8;

const OUTSIDE_LIMITS: u8 = Reason::OutsideLimits as u8;

const TOO_HIGH: u8 = Reason::TooHigh as u8;

const NO_MEANING: u8 = Reason::NoMeaning as u8;

// The place of the first faulty byte of a frame, by the tests of its bytes behind the first; 0 where none is faulty.
fn first_fault(faults: &[bool]) -> usize
    ensures { result ≡ first_fault faults.now }
{
    faults
        .iter()
        .position(|is_faulty| *is_faulty)
        .map_or(0, |i| i + 2)
}

// The numbers of a head, as they stand in the frame at `at`, 0 where the frame ends before.
// Not the `head_of` of `lines`: that asks callers for a frame of six bytes.
fn head_in(text: &[u8], at: usize) -> Head
    ensures { result ≡ head_of (bytes_at text.now at) }
{
    Head {
        channels: byte_or_zero(text, at, 2),
        binders: byte_or_zero(text, at, 3),
        top: byte_or_zero(text, at, 4),
        names: byte_or_zero(text, at, 5),
    }
}

// The place of the first of C, B, k and F that is outside its limits. The tests are those of `outside_limits` (lines), apart, since each has a place.
fn limit_place(head: Head) -> usize
    ensures { result ≡ first_fault (limit_faults head) }
{
    first_fault(&[
        false,
        head.channels == 0 || MOST_CHANNELS < head.channels,
        MOST_BINDERS < head.binders,
        HIGHEST_LEVEL < head.top,
        MOST_NAMES < head.names as usize,
    ])
}

// The place of the first byte that 7 faults in a free name or a restriction.
fn naming_place(head: Head, name: u8, channel: u8) -> usize
    ensures { result ≡ first_fault (naming_faults head name channel) }
{
    first_fault(&[HIGHEST_NAME < name, head.channels <= channel])
}

// Whether a handle of the set of four bytes is not below C.
fn is_wide(head: Head, first: u8, second: u8, third: u8, fourth: u8) -> bool
    ensures { result ≡ is_wide head (set_of_bytes first second third fourth) }
{
    !sets::is_narrow(sets::of_bytes(first, second, third, fourth), head.channels)
}

// The place of the first byte that 7 faults in an offer: its channel, or one of the set's four, each by the handles that it holds itself.
fn offer_place(head: Head, channel: u8, first: u8, second: u8, third: u8, fourth: u8) -> usize
    ensures { result ≡ first_fault (offer_faults head channel first second third fourth) }
{
    first_fault(&[
        head.channels <= channel,
        is_wide(head, first, 0, 0, 0),
        is_wide(head, 0, second, 0, 0),
        is_wide(head, 0, 0, third, 0),
        is_wide(head, 0, 0, 0, fourth),
    ])
}

// The place of the first byte that 7 faults in the frame at `at`, which is no node and stands in this section.
fn section_place(text: &[u8], at: usize, section: Section, head: Head) -> usize
    ensures { result ≡ first_fault (section_faults head section (bytes_at text.now at)) }
{
    let second = byte_or_zero(text, at, 1);
    let third = byte_or_zero(text, at, 2);
    match section {
        Section::FreeNames => naming_place(head, second, third),
        Section::OfferLines => offer_place(
            head,
            second,
            third,
            byte_or_zero(text, at, 3),
            byte_or_zero(text, at, 4),
            byte_or_zero(text, at, 5),
        ),
        Section::LabelLines => first_fault(&[LEVEL < second, !is_thing(head, second, third)]),
        _ => 0,
    }
}

// The place of the first byte that 7 faults in the frame at `at`, which is a node of this kind.
fn node_place(text: &[u8], at: usize, kind: Kind, head: Head) -> usize
    ensures { result ≡ first_fault (node_faults head kind (bytes_at text.now at)) }
{
    let second = byte_or_zero(text, at, 1);
    let third = byte_or_zero(text, at, 2);
    match kind {
        Kind::Send | Kind::Match => first_fault(&[HIGHEST_NAME < second, HIGHEST_NAME < third]),
        Kind::Receive => first_fault(&[
            HIGHEST_NAME < second,
            HIGHEST_NAME < third,
            head.binders <= byte_or_zero(text, at, 3),
        ]),
        Kind::Restriction => naming_place(head, second, third),
        Kind::Bracket => first_fault(&[head.top < second]),
        _ => 0,
    }
}

// The place of the first byte that 7 faults in the frame at `at`, by its row of the table.
fn frame_place(text: &[u8], at: usize, row: Option<Frame>, head: Head) -> usize
    ensures { result ≡ first_fault (frame_faults head row (bytes_at text.now at)) }
{
    row.map_or(0, |frame| match frame.kind {
        Some(kind) => node_place(text, at, kind, head),
        None => section_place(text, at, frame.section, head),
    })
}

// The place of the first name that the frame at `at` uses without a meaning, by its row of the table.
fn frame_unmeant(text: &[u8], at: usize, row: Option<Frame>, scope: Scope) -> usize
    ensures { result ≡ first_fault (frame_unmeant (meaning_in scope) row (bytes_at text.now at)) }
{
    let is_unmeant = |i| look_up(scope, byte_or_zero(text, at, i)).is_none();
    match row.and_then(|frame| frame.kind) {
        Some(Kind::Send | Kind::Match) => first_fault(&[is_unmeant(1), is_unmeant(2)]),
        Some(Kind::Receive) => first_fault(&[is_unmeant(1)]),
        _ => 0,
    }
}

// The place of the byte that a refusal with this number speaks of, in the line at `at`.
pub fn byte_place(text: &[u8], at: usize, head: Head, scope: Scope, number: u8) -> usize
    ensures { result ≡ byte_place head (meaning_in scope) (rest_at text.now at) number }
{
    let row = frame_of(byte_or_zero(text, at, 0));
    match number {
        FAULTY_LINE => bad_pair(text, at),
        NOT_ALLOWED => 1,
        OTHER_EDITION => 2,
        OUTSIDE_LIMITS => limit_place(head_in(text, at)),
        TOO_HIGH => frame_place(text, at, row, head),
        NO_MEANING => frame_unmeant(text, at, row, scope),
        _ => 0,
    }
}
