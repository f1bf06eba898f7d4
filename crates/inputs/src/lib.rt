// From what a program reads to the sheet that it prints: the whole input of `plan`, of `reaches` and of `words`, and a record of `batch`. The programs
// are left with reading and writing. Proved: the sheet is the one asked for, of the whole input at the most rounds that any plan takes; a record's
// three are those of its text at its allowance; and a record that is none is told why.
#![tactic(auto)]

ghost use Rattle.std.specs.Prelude.{◌≡◌, ◌<◌, ◌≤◌, length, Some};
ghost use Rattle.limits.specs.Limits.{longest};
ghost use Rattle.inputs.specs.Header.{header_of, size_in, longest_text};
ghost use Rattle.inputs.specs.Answers.{IsAsked, AnswersInput, sentence_of, AnswersRecord};

use crate::header::{Header, header_of};
use sheet::Sheet;
use std::fmt;

mod header;

// The bytes of an input that decide its sheet: one more than a text may have.
pub const FRONT: usize = limits::LONGEST + 1;

// Why a record is none.
#[derive(Clone, Copy, Debug, PartialEq, Eq)]
pub enum Fault {
    CutShort,
    NoHeader,
    TextTooLong,
    AllowanceTooLarge,
}

// What is said of the record, as a clause with `it` or `its` for the record.
impl fmt::Display for Fault {
    ghost output = { λ fault. Some (sentence_of fault) };

    fn fmt<W: fmt::Write>(&self, f: &mut fmt::Formatter<W>) -> fmt::Result {
        f.write_str(match self {
            Fault::CutShort => "it is cut short",
            Fault::NoHeader => "its header is not sixteen digits of 0-9 a-f and a line feed",
            Fault::TextTooLong => "its length is over 65,536",
            Fault::AllowanceTooLarge => "its allowance is over 65,535",
        })
    }
}

// What a record is answered: its sheet, its reach sheet and its word sheet.
#[derive(Clone, Copy)]
pub struct Sheets {
    pub sheet: Sheet,
    pub reach: Sheet,
    pub words: Sheet,
}

// Which sheet is asked for: the one with the verdict, the reach sheet, or the word sheet.
// An enum and no closure: by its case the contract of `of_input` says which sheet is answered.
#[derive(Clone, Copy)]
pub enum Asked {
    Flow,
    Reach,
    Words,
}

// The sheet of a text that is asked for, within an allowance of rounds.
fn asked_of(asked: Asked, text: &[u8], allowance: u16) -> Sheet
    ensures { IsAsked asked text.now allowance result }
{
    match asked {
        Asked::Flow => sheet::whole(text, allowance),
        Asked::Reach => reach_sheet::whole(text, allowance),
        Asked::Words => word_sheet::whole(text, allowance),
    }
}

// The sheet of a whole input of which the front is lent, with room for more than the longest text; how much of it was read stands beside it.
fn of_front(asked: Asked, front: &[u8], size: usize) -> Sheet
    requires { longest < length front.now }
    ensures { AnswersInput asked front.now size result }
{
    asked_of(asked, front.get(..size).unwrap_or(front), solving::CEILING)
}

// The sheet that is asked for of a whole input, with the most rounds that any plan takes, where `front` begins with as many bytes of the input
// as it can hold, and these are `size`.
// An array with a count, and no slice: an array has room for more than the longest text, which a slice would have to be asked for.
pub fn of_input(asked: Asked, front: [u8; FRONT], size: usize) -> Sheet
    ensures { AnswersInput asked front size result }
{
    of_front(asked, &front, size)
}

// How many bytes the text of a record has, by its header's line: none, and no Option, if that is no header, since callers then read none.
pub fn text_size(line: &[u8]) -> usize
    ensures { (result ≡ size_in (header_of line.now)) × (result ≤ longest_text) }
{
    header_of(line).map_or(0, |header| header.size)
}

// What a record is answered, by its header's line and as many bytes of its text as there were; or why it is none.
pub fn of_record(line: &[u8], text: &[u8]) -> Result<Sheets, Fault>
    ensures { AnswersRecord line.now text.now result }
{
    let Header { size, allowance } = header_of(line)?;
    let text = text.get(..size).ok_or(Fault::CutShort)?;
    Ok(Sheets {
        sheet: sheet::whole(text, allowance),
        reach: reach_sheet::whole(text, allowance),
        words: word_sheet::whole(text, allowance),
    })
}
