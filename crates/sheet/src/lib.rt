// Writes the answer sheet of a plan's text to a lent buffer. The way of the data: a row's sets as lines, the whole answer, and here the
// operation from text. The sheet's length is known first, so that a buffer that is too short is not touched;
// then it is written once, from its start. A whole sheet by itself is in made.rt. Proved: the buffer holds the document's sheet and is
// otherwise as it was, or all of it is.
#![tactic(auto)]

ghost use Rattle.std.specs.Prelude.{◌≡◌, take};
ghost use Rattle.sheet.specs.Sheet.{SheetFor};
ghost use Rattle.sheet.specs.Write.{length_in, Wrote, Writes, IsWhole};

use crate::answers::{length_of, put_answer};

mod answers;
mod made;
mod rows;

pub use answers::put_refusal;
pub use made::{LONGEST, Sheet};

// Refusal 15: the buffer is shorter than the sheet, and the length needed.
#[derive(Clone, Copy, Debug, PartialEq, Eq)]
pub struct TooShort {
    pub needed: usize,
}

// What writing a sheet returns: the length of the sheet, which is in the buffer.
pub type Written = Result<usize, TooShort>;

// Writes the sheet of a text, within an allowance of rounds, from the buffer's start and changes nothing past it; a buffer that is too
// short stays as it is.
pub fn write(text: &[u8], allowance: u16, buffer: &mut [u8]) -> Written
    ensures { Writes SheetFor text.now allowance buffer.old result buffer.new }
{
    let answer = judging::judge(text, allowance);
    let size = length_of(answer);
    if buffer.len() < size {
        return Err(TooShort { needed: size });
    }
    Ok(put_answer(buffer, answer))
}

// The sheet's length, which writing it returns whether it fits or not.
pub fn length_in(written: Written) -> usize
    ensures { result ≡ length_in written }
{
    match written {
        Ok(length) => length,
        Err(TooShort { needed }) => needed,
    }
}

// The whole sheet of a text, within an allowance of rounds. Each of the three sheets has such a function: only a blank array and the way out are theirs alike.
pub fn whole(text: &[u8], allowance: u16) -> Sheet
    ensures { IsWhole SheetFor text.now allowance result }
{
    let answer = judging::judge(text, allowance);
    let mut bytes = [0u8; LONGEST];
    let size = put_answer(&mut bytes, answer);
    Sheet { bytes, size }
}

// Beside `write`, which knows the length before there is a sheet.
// Writes a whole sheet, whichever it is, from the buffer's start and changes nothing past it; a buffer that is too short stays as it is.
pub fn copy(made: Sheet, buffer: &mut [u8]) -> Written
    ensures { Wrote (take made.size made.bytes) buffer.old result buffer.new }
{
    let characters = made.characters();
    if buffer.len() < characters.len() {
        return Err(TooShort {
            needed: characters.len(),
        });
    }
    Ok(putting::put_text(buffer, 0, characters))
}
