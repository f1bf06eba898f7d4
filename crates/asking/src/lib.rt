// Prints the sheet that a program is for, of the plan on standard input.
#![tactic(auto)]

ghost use Rattle.std.specs.Prelude.{OnOk, IfOk};
ghost use Rattle.asking.specs.Prints.{Drops, ReadsToEnd, PrintsSheet};

use inputs::{Asked, FRONT};
use std::io;
use std::io::{Input, Print, Read, Write};

// Reads some more of the input and drops it; says whether there was any.
fn drop_some<R: Read>(from: &mut R) -> io::Result<bool>
    ensures { IfOk result (λ more. Drops (R.remaining from.old) (R.remaining from.new) more) }
{
    let mut rest = streams::large_buffer();
    Ok(streams::read_full(from, &mut rest)? != 0)
}

// Reads the input to its end. A proved loop has to end, and nothing says that the input does: the turns are more than any run takes. Not the library's
// `io::copy`, which tries an interrupted read again, and takes an eighth as much at once. A while, since a `for` would need a branch to end it.
fn drop_rest<R: Read>(from: &mut R) -> io::Result<()>
    ensures { OnOk result (ReadsToEnd (R.remaining from.old) (R.remaining from.new)) }
{
    let mut turns = u64::MAX;
    while turns > 0 && drop_some(from)? {
        turns -= 1;
    }
    Ok(())
}

// Prints the sheet that is asked for, of the text that is read, to its end: what does not decide the sheet is dropped.
pub fn answer_to<R: Read, W: Write>(from: &mut R, to: &mut W, asked: Asked) -> io::Result<()>
    ensures to_end { OnOk result (ReadsToEnd (R.remaining from.old) (R.remaining from.new)) }
    ensures prints { OnOk result (PrintsSheet asked (R.remaining from.old) (W.contents to.old) (W.contents to.new)) }
{
    let mut front = [0u8; FRONT];
    let size = streams::read_full(from, &mut front)?;
    drop_rest(from)?;
    let answer = inputs::of_input(asked, front, size);
    to.write_all(answer.characters())
}

// Prints the sheet that is asked for, of the text on standard input.
pub fn answer(rt: &(impl Input + Print), asked: Asked) -> io::Result<()> {
    answer_to(&mut rt.reader(), &mut io::writer(rt), asked)
}
