// Answers many plans: records on standard input, their sheets on standard output one after the other, each with its reach sheet and its word sheet
// behind it. A record is a line of sixteen hexadecimal digits, eight for the length of the plan's text and eight for the allowance of rounds, and
// then the text's bytes. A record that is none ends the run with a line that names it and says why.
#![tactic(auto)]

ghost use Rattle.std.specs.Prelude.{◌≡◌, length};
ghost use Rattle.inputs.specs.Header.{longest_text};

use sheet::Sheet;
use std::io;
use std::io::{Input, Print, Read};

// Prints a sheet.
fn print(rt: &impl Print, sheet: Sheet) -> io::Result<()> {
    rt.write_all(sheet.characters())
}

// Reads a record's text and prints its sheets, or why it is no record; says whether to go on.
fn answer_record(
    rt: &impl Print,
    input: &mut impl Read,
    line: &[u8],
    text: &mut [u8],
    number: u64,
) -> io::Result<bool> {
    let had = streams::read_full(input, text)?;
    match inputs::of_record(line, &text[..had]) {
        Ok(answer) => {
            print(rt, answer.sheet)?;
            print(rt, answer.reach)?;
            print(rt, answer.words)?;
            Ok(true)
        }
        Err(fault) => {
            println!(rt; "bad record {number}: {fault}")?;
            Ok(false)
        }
    }
}

// Answers the next record, the first being number 1, with room for its text; says whether to go on.
fn answer_next(
    rt: &impl Print,
    input: &mut impl Read,
    room: &mut [u8],
    number: u64,
) -> io::Result<bool>
    requires { longest_text ≡ length room.old }
{
    let mut line = [0u8; 17];
    let got = streams::read_full(input, &mut line)?;
    if got == 0 {
        return Ok(false);
    }
    let size = inputs::text_size(&line[..got]);
    answer_record(rt, input, &line[..got], &mut room[..size], number)
}

// Answers record after record, up to the end of the input or to a bad one.
fn main(rt: HostRuntime) -> io::Result<()> {
    let mut input = rt.reader();
    let mut room = streams::large_buffer();
    // A proved loop has to end, and nothing says that the input does: there are more numbers than any run takes.
    for number in 1..u64::MAX {
        if !answer_next(&rt, &mut input, &mut room, number)? {
            break;
        }
    }
    Ok(())
}
