// Reads a plan text: every text gets a reading, or one numbered refusal by the order of documents 01 and 02.
// The way of the data: cursor (where reading stands), names, offers, labels and tree (the sections, read line by line by the crate `lines`), and the
// whole text here. Proved: `read` returns the document's reading of the text.
#![tactic(auto)]

ghost use Rattle.std.specs.Prelude.{◌≡◌, Err};
ghost use Rattle.lines.specs.Promise.{HeadWithin};
ghost use Rattle.reading.specs.Plan.{wrong_length, after_head, plan_in, reading_of};
ghost use Rattle.reading.specs.inner.Working.{StandsIn, place_at, reads};

use crate::cursor::{Cursor, past, refuse};
use crate::labels::{fresh_labels, read_labels};
use crate::names::{fresh_names, read_names};
use crate::offers::{fresh_offers, read_offers};
use crate::tree::{fresh_state, read_node};
use limits::{CHANNEL_SETS, LONGEST, MOST_DEPTH, MOST_LABELS, MOST_NAMES, MOST_NODES};
use lines::labels::no_label;
use lines::{FreeName, Head, Label, Node, Reason, first_head};
use sets::Set;

mod cursor;
mod labels;
mod names;
mod offers;
mod tree;

pub use tree::branches_of;

// Why a text is refused, and on which line; number 0 and line 0 where it isn't, as document 01 has it of a good reading, and so no Option.
#[derive(Clone, Copy)]
pub struct Refusal {
    pub number: u8,
    pub line: u16,
}

// What a text says, with a set for each channel of the handles that are offered on it, and so many labels and nodes in text order. Unused places
// hold zero, or nil for a node, and an empty set where nothing is offered; a refused text says nothing. Refusal, counts and arrays stand side by side,
// since document 01 gives them so, in fixed memory.
#[derive(Clone, Copy)]
pub struct Reading {
    pub refusal: Refusal,
    pub head: Head,
    pub names: [FreeName; MOST_NAMES],
    pub offers: [Set; CHANNEL_SETS],
    pub labelled: usize,
    pub labels: [Label; MOST_LABELS],
    pub count: usize,
    pub nodes: [Node; MOST_NODES],
}

// What a refused text says: nothing.
fn refused(refusal: Refusal) -> Reading
    ensures { result ≡ reading_of (Err refusal) }
{
    Reading {
        refusal,
        head: Head::default(),
        names: [FreeName::default(); MOST_NAMES],
        offers: [sets::empty(); CHANNEL_SETS],
        labelled: 0,
        labels: [no_label(); MOST_LABELS],
        count: 0,
        nodes: [Node::Nil; MOST_NODES],
    }
}

// What follows the head.
fn after_head(text: &[u8], head: Head, cursor: Cursor) -> Result<Reading, Refusal>
    requires { HeadWithin head × StandsIn text.now cursor }
    ensures { result ≡ reads (after_head head (place_at text.now cursor)) }
{
    let mut named = fresh_names(cursor);
    read_names(text, head, head.names as usize, 0, &mut named)?;
    let offered = read_offers(text, head, 0, fresh_offers(named.cursor))?;
    let labelled = read_labels(text, head, fresh_labels(offered.cursor))?;
    let mut tree = fresh_state(labelled.cursor);
    read_node(text, head, named.scope, MOST_DEPTH, &mut tree)?;
    if tree.cursor.at < text.len() {
        return Err(refuse(tree.cursor, Reason::TextGoesOn));
    }
    let names = named.names;
    let offers = offered.row;
    let labels = labelled.labels;
    let nodes = tree.nodes;
    Ok(Reading {
        refusal: Refusal { number: 0, line: 0 },
        head,
        names,
        offers,
        labelled: labelled.count,
        labels,
        count: tree.count,
        nodes,
    })
}

// Whether a text of so many bytes is empty or too long.
fn wrong_length(size: usize) -> bool
    ensures { result ≡ wrong_length size }
{
    size == 0 || LONGEST < size
}

// What a text says that is a plan, or why it is refused.
fn read_plan(text: &[u8]) -> Result<Reading, Refusal>
    ensures { result ≡ reads (plan_in text.now) }
{
    if wrong_length(text.len()) {
        return Err(refuse(Cursor { at: 0, line: 0 }, Reason::WrongLength));
    }
    let start = Cursor { at: 0, line: 1 };
    match first_head(text, 0) {
        Err(reason) => Err(refuse(start, reason)),
        Ok(head) => after_head(text, head, past(text, start)),
    }
}

// What a text says: the document's reading of it.
pub fn read(text: &[u8]) -> Reading
    ensures { result ≡ reading_of (plan_in text.now) }
{
    match read_plan(text) {
        Err(refusal) => refused(refusal),
        Ok(reading) => reading,
    }
}
