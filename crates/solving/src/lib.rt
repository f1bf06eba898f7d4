// Solves a plan: the least acceptable solution and the number of rounds that finds it. The way of the data: the table of
// sets, the clauses of single nodes, the walk of a round, the rounds.
#![tactic(auto)]

mod clauses;
mod rounds;
mod table;
mod walk;

ghost use Rattle.std.specs.Prelude.{◌≡◌};
ghost use Rattle.reading.specs.Plan.{plan_in};
ghost use Rattle.solving.specs.Solve.{Solves, empty_solution, refused_by};

use limits::{BINDER_SETS, LEVEL_SETS};
use lines::Head;
use reading::Refusal;
use rounds::settle;
use sets::Set;

// No plan's count of rounds is higher.
pub const CEILING: u16 = 17409;

// A solution: a set of channels for each binder, and an in set and an out set for each level and channel, those of a level side by side.
#[derive(Clone, Copy)]
pub struct Solution {
    pub binders: [Set; BINDER_SETS],
    pub ins: [Set; LEVEL_SETS],
    pub outs: [Set; LEVEL_SETS],
}

impl Solution {
    // The solution without a member in any set.
    pub(crate) fn empty() -> Solution
        ensures { result ≡ empty_solution }
    {
        Solution {
            binders: [sets::empty(); BINDER_SETS],
            ins: [sets::empty(); LEVEL_SETS],
            outs: [sets::empty(); LEVEL_SETS],
        }
    }
}

// What solving a text answers. A refused text has no head, no count and no member in any set.
#[derive(Clone, Copy)]
pub struct Solved {
    pub refusal: Refusal,
    pub head: Head,
    pub count: u16,
    pub solution: Solution,
}

// The answer under a refusal: nothing but its number and line.
fn refused(refusal: Refusal) -> Solved
    ensures { result ≡ refused_by refusal }
{
    Solved {
        refusal,
        head: Head::default(),
        count: 0,
        solution: Solution::empty(),
    }
}

// Solves a plan's text within an allowance of rounds: the refusal; or the count and the least acceptable solution. Text and allowance are two parameters,
// here and above, as gateways and programs have them.
pub fn solve(text: &[u8], allowance: u16) -> Solved
    ensures { Solves (plan_in text.now) allowance result }
{
    let reading = reading::read(text);
    // No Result: a reading says by the number 0 that it is a plan, and so does an answer, as document 01 has it.
    if reading.refusal.number != 0 {
        return refused(reading.refusal);
    }
    match settle(&reading.nodes, &reading.offers, allowance) {
        // The count exceeds the allowance.
        None => refused(Refusal {
            number: 14,
            line: 0,
        }),
        Some((count, solution)) => Solved {
            refusal: reading.refusal,
            head: reading.head,
            count,
            solution,
        },
    }
}
