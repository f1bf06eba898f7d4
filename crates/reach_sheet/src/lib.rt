// Writes the reach sheet of a plan's text: a line for each level and each handle that the level may receive, with the smallest channel. It is put
// together in an array that holds any, and copied to a lent buffer where it fits. Proved: the buffer holds the reach sheet and is otherwise as it
// was, or all of it is.
#![tactic(auto)]

ghost use Rattle.std.specs.Prelude.{◌<◌};
ghost use Rattle.limits.specs.Limits.{level_sets};
ghost use Rattle.putting.specs.Characters.{hex_lines};
ghost use Rattle.putting.specs.Put.{Room, Put};
ghost use Rattle.sheet.specs.Write.{Writes, IsWhole};
ghost use Rattle.reach_sheet.specs.ReachSheet.{line_for, reach_lines, reach_sheet_of, ReachSheetFor};

use limits::CHANNEL_SETS;
use putting::{put_line, put_text};
use reaching::Received;
use sets::Set;
use sheet::{LONGEST, Sheet, Written};

// Puts the line of a place, the level's and the handle's, or nothing where the handle is not among the level's.
fn put_place(buffer: &mut [u8], at: usize, handles: Set, place: usize, channel: u8) -> usize
    requires place { place < level_sets }
    requires room { Room buffer.old at (hex_lines (line_for handles place channel)) }
    ensures { Put buffer.old at (hex_lines (line_for handles place channel)) buffer.new result }
{
    let level = (place / CHANNEL_SETS) as u8;
    let handle = (place % CHANNEL_SETS) as u8;
    if !sets::has(handles, handle as u32) {
        return at;
    }
    put_line(buffer, at, &[0x23, level, handle, channel])
}

// Puts the lines of all places at the buffer's start. Beside `put_row` (sheet): here a place has a level's set and a channel, there a set of its own.
fn put_lines(buffer: &mut [u8], received: Received) -> usize
    requires { Room buffer.old 0 (hex_lines (reach_lines received.handles received.channels level_sets 0)) }
    ensures { Put buffer.old 0 (hex_lines (reach_lines received.handles received.channels level_sets 0)) buffer.new result }
{
    let mut next = 0;
    for (place, channel) in received.channels.iter().enumerate() {
        let handles = received.handles[place / CHANNEL_SETS];
        next = put_place(buffer, next, handles, place, *channel);
    }
    next
}

// Puts the reach sheet at the buffer's start.
fn put_received(buffer: &mut [u8], received: Received) -> usize
    requires { Room buffer.old 0 (reach_sheet_of received) }
    ensures { Put buffer.old 0 (reach_sheet_of received) buffer.new result }
{
    // The number 0 says that there is no refusal, as document 01 has it.
    if received.refusal.number != 0 {
        return sheet::put_refusal(buffer, received.refusal);
    }
    let next = put_lines(buffer, received);
    put_text(buffer, next, b"reach complete\n")
}

// The whole reach sheet of a text, within an allowance of rounds.
#[tactic(auto, using(crate::proofs::Reached::reach_most))]
pub fn whole(text: &[u8], allowance: u16) -> Sheet
    ensures { IsWhole ReachSheetFor text.now allowance result }
{
    let received = reaching::reach(text, allowance);
    let mut bytes = [0u8; LONGEST];
    let size = put_received(&mut bytes, received);
    Sheet { bytes, size }
}

// One line over `whole`, as in `word_sheet`.
// Writes the reach sheet of a text, within an allowance of rounds, from the buffer's start and changes nothing past it; a buffer that is too short
// stays as it is.
pub fn write(text: &[u8], allowance: u16, buffer: &mut [u8]) -> Written
    ensures { Writes ReachSheetFor text.now allowance buffer.old result buffer.new }
{
    sheet::copy(whole(text, allowance), buffer)
}
