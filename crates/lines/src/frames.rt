// The sections of a text, the table of frames, and the frame on a line.
ghost use Rattle.std.specs.Prelude.{◌≡◌, IfOk};
ghost use Rattle.text.specs.Positions.{rest_at};
ghost use Rattle.lines.specs.declared.frames.Frame.{Frame};
ghost use Rattle.lines.specs.Frames.{only, to_tree, outside, frame_of, row_in, frame_in};
ghost use Rattle.lines.specs.inner.Working.{Framing};

use crate::Reason;
use limits::LONGEST_LABEL;
use text::{byte_in, is_faulty, line_end, size_in};

// The bytes of the longest label's frame: its first byte, the kind and the number stand before the label.
const LONGEST_LABEL_FRAME: usize = 3 + LONGEST_LABEL;

// The sections of a text, in order.
#[derive(Clone, Copy, Debug, PartialEq, Eq, PartialOrd, Ord)]
pub enum Section {
    FirstLine,
    FreeNames,
    OfferLines,
    LabelLines,
    TreeLines,
}

// The sections that the next line may stand in: from the one that reading stands in to the last that may come now.
#[derive(Clone, Copy)]
pub struct Span {
    pub from: Section,
    pub to: Section,
}

// The kinds of node.
#[derive(Clone, Copy, Debug, PartialEq, Eq)]
pub enum Kind {
    Nil,
    Silent,
    Send,
    Receive,
    Sum,
    Parallel,
    Restriction,
    Match,
    Replication,
    Bracket,
}

// A row of the table: in which section a frame stands, of which kind of node it is, if of any, and how many bytes it has, at least and at most.
#[derive(Clone, Copy)]
pub struct Frame {
    pub section: Section,
    pub kind: Option<Kind>,
    pub least: usize,
    pub most: usize,
}

// One section alone.
pub(crate) fn only(section: Section) -> Span
    ensures { result ≡ only section }
{
    Span {
        from: section,
        to: section,
    }
}

// The sections from one that may be over to the tree. Beside `only`, since the documents allow sections in these two ways.
pub(crate) fn to_tree(section: Section) -> Span
    ensures { result ≡ to_tree section }
{
    Span {
        from: section,
        to: Section::TreeLines,
    }
}

// Whether a section is not allowed.
fn outside(span: Span, section: Section) -> bool
    ensures { result ≡ outside span section }
{
    section < span.from || span.to < section
}

// A row of the table, for a frame of so many bytes.
fn row(section: Section, kind: Option<Kind>, size: usize) -> Frame
    ensures { result ≡ record { section = section; kind = kind; least = size; most = size } }
{
    Frame {
        section,
        kind,
        least: size,
        most: size,
    }
}

// The frame that a first byte begins, if it begins any.
#[tactic(auto, unfolding(crate::specs::Frames::table, crate::specs::Frames::frame_from))]
pub fn frame_of(first: u8) -> Option<Frame>
    ensures { result ≡ frame_of first }
{
    Some(match first {
        0x01 => row(Section::FirstLine, None, 6),
        0x02 => row(Section::FreeNames, None, 3),
        0x03 => row(Section::OfferLines, None, 6),
        0x04 => Frame {
            section: Section::LabelLines,
            kind: None,
            least: 4,
            most: LONGEST_LABEL_FRAME,
        },
        0x10 => row(Section::TreeLines, Some(Kind::Nil), 1),
        0x11 => row(Section::TreeLines, Some(Kind::Silent), 1),
        0x12 => row(Section::TreeLines, Some(Kind::Send), 3),
        0x13 => row(Section::TreeLines, Some(Kind::Receive), 4),
        0x14 => row(Section::TreeLines, Some(Kind::Sum), 1),
        0x15 => row(Section::TreeLines, Some(Kind::Parallel), 1),
        0x16 => row(Section::TreeLines, Some(Kind::Restriction), 3),
        0x17 => row(Section::TreeLines, Some(Kind::Match), 3),
        0x18 => row(Section::TreeLines, Some(Kind::Replication), 1),
        0x19 => row(Section::TreeLines, Some(Kind::Bracket), 2),
        _ => return None,
    })
}

// What a row of the table is at this point, for a frame of so many bytes: 3 and 4 are judged, in this order.
fn row_in(span: Span, size: usize, row: Option<Frame>) -> Result<Frame, Reason>
    ensures { result ≡ row_in span size row }
{
    let frame = row.ok_or(Reason::NotAllowed)?;
    if outside(span, frame.section) {
        return Err(Reason::NotAllowed);
    }
    if size < frame.least || frame.most < size {
        return Err(Reason::WrongSize);
    }
    Ok(frame)
}

// What the line at `at` is at this point: 12, 2, 3 and 4 are judged, in this order.
pub(crate) fn frame_in(text: &[u8], span: Span, at: usize) -> Result<Frame, Reason>
    ensures judged { result ≡ frame_in span (rest_at text.now at) }
    ensures framing { IfOk result (Framing text.now span at) }
{
    if text.len() <= at {
        return Err(Reason::TextEnds);
    }
    if is_faulty(text, at, line_end(text, at)) {
        return Err(Reason::FaultyLine);
    }
    row_in(span, size_in(text, at), frame_of(byte_in(text, at, 0)))
}
