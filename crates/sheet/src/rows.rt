// A solution's sets as lines: the rows of the binders' sets, of the in sets and of the out sets.
ghost use Rattle.std.specs.Prelude.{◌≡◌, ◌<◌, ◌≤◌, length};
ghost use Rattle.limits.specs.Limits.{level_sets};
ghost use Rattle.sheet.specs.Write.{longest_sheet};
ghost use Rattle.putting.specs.Put.{Room, Put};
ghost use Rattle.sheet.specs.inner.Working.{set_text, row_text, solution_text, filled_in};

use limits::CHANNEL_SETS;
use putting::put_line;
use sets::Set;
use solving::Solution;

// Whose sets a row has: the binders', or those of each level and channel, received or sent. Its lines begin with its number. An enum and no closure: the
// definitions of a row's lines go by it.
#[derive(Clone, Copy)]
enum Part {
    Binders = 0x20,
    Ins = 0x21,
    Outs = 0x22,
}

// How many sets are not empty.
#[tactic(auto, using(sets::proofs::Minimum::none_told))]
fn filled(row: &[Set]) -> usize
    ensures { result ≡ filled_in row.now }
{
    row.iter().filter(|set| !sets::is_empty(**set)).count()
}

// Puts a set's line, or nothing for an empty set.
fn put_set(buffer: &mut [u8], at: usize, part: Part, place: usize, set: Set) -> usize
    requires place { place < level_sets }
    requires room { Room buffer.old at (set_text part place set) }
    ensures { Put buffer.old at (set_text part place set) buffer.new result }
{
    if sets::is_empty(set) {
        return at;
    }
    let [first, second, third, fourth] = sets::bytes(set);
    let level = (place / CHANNEL_SETS) as u8;
    let channel = (place % CHANNEL_SETS) as u8;
    match part {
        Part::Binders => put_line(
            buffer,
            at,
            &[part as u8, place as u8, first, second, third, fourth],
        ),
        Part::Ins | Part::Outs => put_line(
            buffer,
            at,
            &[part as u8, level, channel, first, second, third, fourth],
        ),
    }
}

// Puts the lines of a row's sets, by their places.
fn put_row(buffer: &mut [u8], at: usize, part: Part, row: &[Set]) -> usize
    requires size { length row.now ≤ level_sets }
    requires room { Room buffer.old at (row_text part row.now) }
    ensures { Put buffer.old at (row_text part row.now) buffer.new result }
{
    let mut next = at;
    for (place, set) in row.iter().enumerate() {
        next = put_set(buffer, next, part, place, *set);
    }
    next
}

// Puts the lines of all sets.
#[tactic(auto, using(putting::proofs::Putting::rooms))]
pub(crate) fn put_solution(buffer: &mut [u8], at: usize, solution: Solution) -> usize
    requires { Room buffer.old at (solution_text solution) }
    ensures { Put buffer.old at (solution_text solution) buffer.new result }
{
    let bound = put_row(buffer, at, Part::Binders, &solution.binders);
    let received = put_row(buffer, bound, Part::Ins, &solution.ins);
    put_row(buffer, received, Part::Outs, &solution.outs)
}

// The length of the lines of all sets: 13 characters for the 6 bytes of a binder's, 15 for the 7 of a level and channel's.
#[tactic(auto, using(crate::proofs::Parts::solution_size))]
pub(crate) fn solution_length(solution: Solution) -> usize
    ensures exact { result ≡ length (solution_text solution) }
    ensures bounded { result ≤ longest_sheet }
{
    let levels = filled(&solution.ins) + filled(&solution.outs);
    13 * filled(&solution.binders) + 15 * levels
}
