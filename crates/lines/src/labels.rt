// Labels: what may have one, its place among all that may, and the rule of a label's frame over its bytes (7, 8, 17).
ghost use Rattle.std.specs.Prelude.{◌≡◌, ◌+◌, ◌≤◌, length};
ghost use Rattle.limits.specs.Limits.{longest_label};
ghost use Rattle.text.specs.Positions.{bytes_at};
ghost use Rattle.lines.specs.Labels.{is_thing, place_among, label_of, label_rule, label_in};
ghost use Rattle.lines.specs.Values.{no_label};
ghost use Rattle.lines.specs.inner.Working.{IsRow};

use crate::frames::{Frame, Section};
use crate::{Head, Label, Reason};
use limits::{BINDER_SETS, CHANNEL_SETS, LONGEST_LABEL, OUTERMOST};
use text::{byte_in, bytes_in, size_in};

// The kinds of thing that may have a label. Numbers and no enum: `is_thing` and `place_among` take whatever byte a text has for a kind.
pub const CHANNEL: u8 = 0;

pub const BINDER: u8 = 1;

pub const LEVEL: u8 = 2;

// Whether a kind and a number name a thing of the plan: a channel below C, a binder below B, a level 0 to k or the outermost.
pub fn is_thing(head: Head, kind: u8, number: u8) -> bool
    ensures { result ≡ is_thing head kind number }
{
    match kind {
        CHANNEL => number < head.channels,
        BINDER => number < head.binders,
        LEVEL => number <= head.top || number == OUTERMOST,
        _ => false,
    }
}

// The place of a thing among all that may have a label: the channels, the binders, the levels.
pub fn place_among(kind: u8, number: u8) -> usize
    ensures { result ≡ place_among kind number }
{
    let place = number as usize;
    match kind {
        CHANNEL => place,
        BINDER => CHANNEL_SETS + place,
        _ => CHANNEL_SETS + BINDER_SETS + place,
    }
}

// No label, as it stands in the unused places of an array: document 01 has these hold zero.
pub fn no_label() -> Label
    ensures { result ≡ no_label }
{
    Label {
        kind: 0,
        number: 0,
        size: 0,
        bytes: [0; LONGEST_LABEL],
    }
}

// The label in the frame at `at`, which has `size` bytes.
fn label_of(text: &[u8], at: usize, size: usize) -> Label
    requires { (size ≤ longest_label) × (length (bytes_at text.now at) ≡ 3 + size) }
    ensures { result ≡ label_of (bytes_at text.now at) }
{
    let mut bytes = [0; LONGEST_LABEL];
    bytes_in(text, at, 3, &mut bytes[..size]);
    Label {
        kind: byte_in(text, at, 1),
        number: byte_in(text, at, 2),
        size,
        bytes,
    }
}

// A label of a thing whose place has to be `least` or more.
fn label_rule(head: Head, least: usize, label: Label) -> Result<Option<Label>, Reason>
    ensures { result ≡ label_rule head least label }
{
    if !is_thing(head, label.kind, label.number) {
        return Err(Reason::TooHigh);
    }
    if place_among(label.kind, label.number) < least {
        return Err(Reason::NotAscending);
    }
    if !label_bytes::is_label(label.own_bytes()) {
        return Err(Reason::IllFormedLabel);
    }
    Ok(Some(label))
}

// The label in the frame at `at`, of which `frame` is the table's row; or none, where the frame is of a later section and the labels are over. Beside
// `offer_in`, which ends so too: one function would need the rule as a closure, and be longer than both.
pub(crate) fn label_in(
    text: &[u8],
    at: usize,
    frame: Frame,
    head: Head,
    least: usize,
) -> Result<Option<Label>, Reason>
    requires { IsRow (bytes_at text.now at) frame }
    ensures { result ≡ label_in head least frame (bytes_at text.now at) }
{
    if frame.section != Section::LabelLines {
        return Ok(None);
    }
    label_rule(head, least, label_of(text, at, size_in(text, at) - 3))
}
