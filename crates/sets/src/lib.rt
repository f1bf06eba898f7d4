// Sets of channels. Nobody above this crate knows what a set is made of: it is a number, and channel c is a member where the binary digit c of
// the number is 1. Every contract but those on bytes speaks of members alone (specs/Set.antt), and each fixes the answer. What is done to whole rows of
// sets is in rows.rt, and the walk over a set's members in walk.rt.
#![tactic(auto)]

pub mod rows;
mod walk;

ghost use Rattle.std.specs.Prelude.{◌≡◌, ◌⊎◌, ◌<◌};
ghost use Rattle.limits.specs.Limits.{most_channels};
ghost use Rattle.sets.specs.Set.{none, Has, is_member, Members, Empty, Meet, Narrow, LeastMember, Without, Decides, set_bytes, set_of_bytes};

use limits::MOST_CHANNELS;

// A set of channels. An alias and no struct: document 01 has the sets of a solution in arrays of u32.
pub type Set = u32;

// The set without a member.
pub fn empty() -> Set
    ensures { result ≡ none }
{
    0
}

// The set of every channel.
pub fn every() -> Set
    ensures { Members result (λ c. c < most_channels) }
{
    u32::MAX
}

// Whether `channel` is a member of `set`. A channel is a number here and below, and no type of its own: those above count with it.
pub fn has(set: Set, channel: u32) -> bool
    requires { channel < most_channels }
    ensures { result ≡ is_member set channel }
{
    (set >> channel) % 2 == 1
}

// The set whose one member is `channel`.
pub fn single(channel: u32) -> Set
    requires { channel < most_channels }
    ensures { Members result (λ c. c ≡ channel) }
{
    1 << channel
}

// The set of all that is in `a` or in `b`.
pub fn union(a: Set, b: Set) -> Set
    ensures { Members result (λ c. Has a c ⊎ Has b c) }
{
    a | b
}

// The set of all that is in `a` and in `b`.
pub fn both(a: Set, b: Set) -> Set
    ensures { Members result (λ c. Has a c × Has b c) }
{
    a & b
}

// Whether `a` and `b` share a member.
pub fn meets(a: Set, b: Set) -> bool
    ensures { Decides result (Meet a b) }
{
    a & b != 0
}

// Whether `set` has no member.
pub fn is_empty(set: Set) -> bool
    ensures { Decides result (Empty set) }
{
    set == 0
}

// Whether every member of `set` is below `width`.
pub fn is_narrow(set: Set, width: u8) -> bool
    ensures { Decides result (Narrow width set) }
{
    MOST_CHANNELS <= width || set >> width == 0
}

// The least member of a set that has one.
pub fn least(set: Set) -> u32
    requires { Empty set → ⊥ }
    ensures least_member { LeastMember set result }
    ensures upper_bound { result < most_channels }
{
    set.trailing_zeros()
}

// `set` without its member `channel`. It is smaller, so that a loop that takes members away comes to an end.
pub(crate) fn without(set: Set, channel: u32) -> Set
    requires { (channel < most_channels) × Has set channel }
    ensures { Without set channel result }
{
    set & !(1 << channel)
}

// A set as four bytes, high byte first.
pub fn bytes(set: Set) -> [u8; 4]
    ensures { result ≡ set_bytes set }
{
    set.to_be_bytes()
}

// The set of four bytes, high byte first. Four parameters and no array: callers pick them out of a line one by one.
pub fn of_bytes(first: u8, second: u8, third: u8, fourth: u8) -> Set
    ensures { result ≡ set_of_bytes first second third fourth }
{
    u32::from_be_bytes([first, second, third, fourth])
}
