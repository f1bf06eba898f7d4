// The sheet, the reach sheet and the word sheet for gateways that are written in another language: three functions, exported under C names, over
// numbers and lent bytes.
#![tactic(auto)]

ghost use Rattle.sheet.specs.Sheet.{SheetFor};
ghost use Rattle.reach_sheet.specs.ReachSheet.{ReachSheetFor};
ghost use Rattle.word_sheet.specs.WordSheet.{WordSheetFor};
ghost use Rattle.gateway.specs.Call.{Answers};

use sheet::length_in;

// The length of the sheet of a text within an allowance of rounds. Where the buffer is as long or longer, the sheet stands at its start and
// nothing past it is changed; where it is shorter, nothing of it is changed.
#[unsafe(no_mangle)]
pub extern "C" fn hjaltropa_sheet(text: &[u8], allowance: u16, buffer: &mut [u8]) -> usize
    ensures { Answers SheetFor text.now allowance buffer.old result buffer.new }
{
    length_in(sheet::write(text, allowance, buffer))
}

// The same for the reach sheet. Three functions, since C has each by its name.
#[unsafe(no_mangle)]
pub extern "C" fn hjaltropa_reach(text: &[u8], allowance: u16, buffer: &mut [u8]) -> usize
    ensures { Answers ReachSheetFor text.now allowance buffer.old result buffer.new }
{
    length_in(reach_sheet::write(text, allowance, buffer))
}

// The same for the word sheet.
#[unsafe(no_mangle)]
pub extern "C" fn hjaltropa_words(text: &[u8], allowance: u16, buffer: &mut [u8]) -> usize
    ensures { Answers WordSheetFor text.now allowance buffer.old result buffer.new }
{
    length_in(word_sheet::write(text, allowance, buffer))
}
