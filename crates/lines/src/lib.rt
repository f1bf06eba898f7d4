// What one line of a plan text says, as the head's, a free name's, an offer's, a label's or a node's: what was found, or why it is refused.
// The way of the data: reasons (the refusals), frames (the table, over a line's bytes, which the crate `text` finds), scope (what names mean), rules and
// labels (what a frame's bytes say), and the line here. Proved: each operation answers as documents 01 and 02 judge the line at that position. It knows nothing of the lines
// before and behind: a caller says which section reading stands in by the operation, and what was read before by its arguments.
#![tactic(auto)]

ghost use Rattle.std.specs.Prelude.{◌≡◌};
ghost use Rattle.text.specs.Positions.{rest_at};
ghost use Rattle.lines.specs.Line.{first_head, next_name, next_offer, next_label, next_node};
ghost use Rattle.lines.specs.Values.{meaning_in};

use crate::frames::{Section, frame_in, only, to_tree};
use crate::labels::label_in;
use crate::rules::{head_in, name_in, node_in, offer_in};
use crate::scope::Scope;
use limits::MOST_NODES;
use sets::Set;

pub mod frames;
mod label;
pub mod labels;
mod reasons;
mod rules;
pub mod scope;

pub use label::Label;
pub use reasons::Reason;

// What a name stands for: a channel, or a receive's binder.
#[derive(Clone, Copy, Debug, PartialEq, Eq)]
pub enum Marker {
    Channel(u8),
    Binder(u8),
}

// A node of the tree, with the numbers of its frame and the markers of the names it uses.
#[derive(Clone, Copy)]
pub enum Node {
    Nil,
    Silent,
    Send(Marker, Marker),
    Receive(Marker, u8, u8),
    Sum,
    Parallel,
    Restriction(u8, u8),
    Match(Marker, Marker),
    Replication,
    Bracket(u8),
}

// The head's numbers: C channels, B binders, levels 0 to k (the top), F free names. No field says that they keep the limits: a refused text's are zero.
#[derive(Clone, Copy, Default)]
pub struct Head {
    pub channels: u8,
    pub binders: u8,
    pub top: u8,
    pub names: u8,
}

// A free name and its channel.
#[derive(Clone, Copy, Default)]
pub struct FreeName {
    pub name: u8,
    pub channel: u8,
}

// What the outside offers on a channel: a set of handles.
#[derive(Clone, Copy)]
pub struct Offer {
    pub channel: u8,
    pub set: Set,
}

// The five operations differ in section, rule and what these take: one over both would be longer than they are, and say less.
// What the line at `at` says as the first line.
pub fn first_head(text: &[u8], at: usize) -> Result<Head, Reason>
    ensures { result ≡ first_head (rest_at text.now at) }
{
    frame_in(text, only(Section::FirstLine), at)?;
    head_in(text, at)
}

// What the line at `at` says as a free name's, which has to be `least` or more.
pub fn next_name(text: &[u8], at: usize, head: Head, least: usize) -> Result<FreeName, Reason>
    ensures { result ≡ next_name head least (rest_at text.now at) }
{
    frame_in(text, only(Section::FreeNames), at)?;
    name_in(text, at, head, least)
}

// What the line at `at` says where an offer may stand, on a channel that is `least` or more: none, where the offers are over.
pub fn next_offer(text: &[u8], at: usize, head: Head, least: usize) -> Result<Option<Offer>, Reason>
    ensures { result ≡ next_offer head least (rest_at text.now at) }
{
    let frame = frame_in(text, to_tree(Section::OfferLines), at)?;
    offer_in(text, at, frame, head, least)
}

// What the line at `at` says where a label may stand, of a thing whose place is `least` or more: none, where the labels are over.
pub fn next_label(text: &[u8], at: usize, head: Head, least: usize) -> Result<Option<Label>, Reason>
    ensures { result ≡ next_label head least (rest_at text.now at) }
{
    let frame = frame_in(text, to_tree(Section::LabelLines), at)?;
    label_in(text, at, frame, head, least)
}

// What the line at `at` says as a node's, with `depth` left and `count` nodes read.
pub fn next_node(
    text: &[u8],
    at: usize,
    depth: usize,
    head: Head,
    scope: Scope,
    count: usize,
) -> Result<Node, Reason>
    ensures { result ≡ next_node depth head (meaning_in scope) count (rest_at text.now at) }
{
    let frame = frame_in(text, only(Section::TreeLines), at)?;
    if MOST_NODES <= count {
        return Err(Reason::TooManyNodes);
    }
    if depth == 0 {
        return Err(Reason::TooDeep);
    }
    node_in(text, at, frame, head, scope)
}
