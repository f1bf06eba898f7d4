// Says which handles each level may receive in the least solution of a plan, and on which channel. Above solving, by its promise alone, and
// beside judging: nothing here asks who ranks above whom.
#![tactic(auto)]

ghost use Rattle.std.specs.Prelude.{◌≡◌, ◌<◌};
ghost use Rattle.limits.specs.Limits.{most_channels, levels};
ghost use Rattle.reading.specs.Plan.{plan_in};
ghost use Rattle.reaching.specs.Reach.{Reaches};
ghost use Rattle.reaching.specs.inner.Working.{HandlesIn, first_on, ChannelsIn};

use limits::{CHANNEL_SETS, LEVEL_SETS};
use reading::Refusal;
use sets::Set;

// The levels that there are, # among them: the length of an array, and so a usize.
pub const LEVELS: usize = limits::LEVELS as usize;

// What each level may receive: a set of handles for each level, # the last, and for each level and handle the smallest channel on which the level
// may receive it, 0 where it may not. A refused text has nothing received.
// Two arrays, as `ReachOf` speaks of them. 0 and no Option: the contract of `reach` names it (`none` of `ReachOf`), and the handle's set tells it from channel 0.
#[derive(Clone, Copy)]
pub struct Received {
    pub refusal: Refusal,
    pub handles: [Set; LEVELS],
    pub channels: [u8; LEVEL_SETS],
}

// The handles that each level may receive on any channel, by the in sets.
fn handles_in(ins: &[Set; LEVEL_SETS]) -> [Set; LEVELS]
    ensures { HandlesIn ins.now result }
{
    let mut handles = [sets::empty(); LEVELS];
    for (level, received) in handles.iter_mut().enumerate() {
        *received = sets::rows::together(ins, level * CHANNEL_SETS, sets::every());
    }
    handles
}

// The smallest channel on which a level may receive a handle, if there is one.
fn first_channel(ins: &[Set; LEVEL_SETS], level: usize, handle: usize) -> Option<usize>
    requires { (level < levels) × (handle < most_channels) }
    ensures { result ≡ first_on ins.now level handle }
{
    let start = level * CHANNEL_SETS;
    ins[start..start + CHANNEL_SETS]
        .iter()
        .position(|received| sets::has(*received, handle as u32))
}

// That channel for each level and handle, those of a level side by side, 0 where there is none. Beside `handles_in`: another array, by another rule.
fn channels_in(ins: &[Set; LEVEL_SETS]) -> [u8; LEVEL_SETS]
    ensures { ChannelsIn ins.now result }
{
    let mut channels = [0; LEVEL_SETS];
    for (place, channel) in channels.iter_mut().enumerate() {
        let first = first_channel(ins, place / CHANNEL_SETS, place % CHANNEL_SETS);
        *channel = first.unwrap_or(0) as u8;
    }
    channels
}

// What each level may receive, of a plan's text within an allowance of rounds; nothing under a refusal, which is solving's.
pub fn reach(text: &[u8], allowance: u16) -> Received
    ensures { Reaches (plan_in text.now) allowance result }
{
    let solved = solving::solve(text, allowance);
    let ins = &solved.solution.ins;
    Received {
        refusal: solved.refusal,
        handles: handles_in(ins),
        channels: channels_in(ins),
    }
}
