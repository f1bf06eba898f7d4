// Prints the word sheet of the plan on standard input.
#![tactic(auto)]

use inputs::Asked;
use std::io;

// Prints the word sheet of the text on standard input.
fn main(rt: HostRuntime) -> io::Result<()> {
    asking::answer(&rt, Asked::Words)
}
