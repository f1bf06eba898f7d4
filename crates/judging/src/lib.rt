// Judges a plan: whether anything goes down, from a level to a lower one, in its least solution. Above solving, by its promise alone.
#![tactic(auto)]

ghost use Rattle.sets.specs.Set.{Decides};
ghost use Rattle.reading.specs.Plan.{plan_in};
ghost use Rattle.solving.specs.Solutions.{members_in};
ghost use Rattle.judging.specs.Verdict.{Lower};
ghost use Rattle.judging.specs.Judge.{VerdictOn, Judges};

use limits::{CHANNEL_SETS, LEVELS, MOST_CHANNELS, OUTERMOST};
use solving::{Solution, Solved};

// A handle that goes down: sent on the channel at the higher level, and received on it at the lower.
#[derive(Clone, Copy, Debug, PartialEq, Eq)]
pub struct Breach {
    pub higher: u8,
    pub lower: u8,
    pub channel: u8,
    pub handle: u8,
}

// Whether the least solution is discreet, with its first breach where it isn't. A refused text isn't judged.
// An enum of its own, and no Option of a Result: these are document 01's three answers, and `verdict_bytes` gives each its bytes.
#[derive(Clone, Copy, Debug, PartialEq, Eq)]
pub enum Verdict {
    Unjudged,
    Yes,
    No(Breach),
}

// What judging a text answers.
#[derive(Clone, Copy)]
pub struct Answer {
    pub solved: Solved,
    pub verdict: Verdict,
}

// Whether level `low` is lower than level `high`: as numbers, among the levels 0 to `top`. The outermost level is comparable to none.
fn is_lower(low: u8, high: u8, top: u8) -> bool
    ensures { Decides result (Lower top low high) }
{
    low != OUTERMOST && high != OUTERMOST && high <= top && low < high
}

// The verdict on any sets, with the levels 0 to `top` ordered as numbers: yes exactly if nothing goes down, and otherwise the first breach.
fn verdict_of(solution: &Solution, top: u8) -> Verdict
    ensures { VerdictOn (Lower top) (members_in solution.now) result }
{
    for high in 0..LEVELS {
        for low in 0..LEVELS {
            if is_lower(low, high, top) {
                for channel in 0..MOST_CHANNELS {
                    let sent = solution.outs[high as usize * CHANNEL_SETS + channel as usize];
                    let received = solution.ins[low as usize * CHANNEL_SETS + channel as usize];
                    let handles = sets::both(sent, received);
                    if !sets::is_empty(handles) {
                        return Verdict::No(Breach {
                            higher: high,
                            lower: low,
                            channel,
                            handle: sets::least(handles) as u8,
                        });
                    }
                }
            }
        }
    }
    Verdict::Yes
}

// Judges a text within an allowance of rounds: what solving answers, and beside it the verdict on the least solution, or none under a
// refusal.
pub fn judge(text: &[u8], allowance: u16) -> Answer
    ensures { Judges (plan_in text.now) allowance result }
{
    let solved = solving::solve(text, allowance);
    // The number 0 says that there is no refusal, as document 01 has it.
    let verdict = if solved.refusal.number == 0 {
        verdict_of(&solved.solution, solved.head.top)
    } else {
        Verdict::Unjudged
    };
    Answer { solved, verdict }
}
