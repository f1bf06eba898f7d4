// Prints the answer sheet of the plan on standard input. `reaches` and `words` are programs of one line too, each for another sheet.
#![tactic(auto)]

use inputs::Asked;
use std::io;

// Prints the sheet of the text on standard input.
fn main(rt: HostRuntime) -> io::Result<()> {
    asking::answer(&rt, Asked::Flow)
}
