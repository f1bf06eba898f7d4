// The sets of a solution in one table, so that a round lends two arrays and no more: the binders' sets, then the in sets and
// then the out sets, those of a level side by side.
ghost use Rattle.std.specs.Prelude.{◌≡◌, ◌<◌};
ghost use Rattle.limits.specs.Limits.{most_channels, levels};
ghost use Rattle.sets.specs.Set.{Has, Members, Narrow, Decides};
ghost use Rattle.sets.specs.Rows.{empty_row, Joins, Over};
ghost use Rattle.solving.specs.Solutions.{SetOf};
ghost use Rattle.solving.specs.inner.Table.{table_size, ins_at, outs_at, in_table, MarkerFits, SentOn, Sent, Sounding, Unpacked};

use crate::Solution;
use limits::{BINDER_SETS, CHANNEL_SETS, LEVEL_SETS, LEVELS};
use lines::Marker;
use sets::Set;

// Where the in sets begin.
const INS: usize = BINDER_SETS;
// Where the out sets begin.
const OUTS: usize = INS + LEVEL_SETS;
// The sets of a table.
const TABLE_SETS: usize = OUTS + LEVEL_SETS;

// A table of sets.
pub(crate) type Table = [Set; TABLE_SETS];

// Where the in sets of a level begin.
// That a level is below 8 is asked here and above, and is no type's: nodes hold levels as plain numbers, which only the plan bounds.
pub(crate) fn ins_at(level: u8) -> usize
    requires { level < levels }
    ensures { result ≡ ins_at level }
{
    INS + (level as usize) * CHANNEL_SETS
}

// Where the out sets of a level begin.
// Beside `ins_at`: one function of both starts would be no shorter, and say less where it is called.
pub(crate) fn outs_at(level: u8) -> usize
    requires { level < levels }
    ensures { result ≡ outs_at level }
{
    OUTS + (level as usize) * CHANNEL_SETS
}

// The table whose sets are all empty.
pub(crate) fn empty() -> Table
    ensures { result ≡ empty_row table_size }
{
    [sets::empty(); TABLE_SETS]
}

// S(x), the set of a marker.
pub(crate) fn set_of(x: Marker, table: &Table) -> Set
    requires { MarkerFits x }
    ensures members { Members result (SetOf (in_table table.now) x) }
    ensures narrow { Narrow most_channels result }
{
    match x {
        Marker::Channel(c) => sets::single(c as u32),
        Marker::Binder(b) => sets::rows::at(table, b as usize),
    }
}

// What has been sent on any channel of `channels`, at any level: the union of their out sets. Beside `gather`: here sets are joined, and there rows.
fn sent(table: &Table, channels: Set) -> Set
    ensures { Members result (Sent table.now levels (Has channels)) }
{
    let mut all = sets::empty();
    for level in 0..LEVELS {
        all = sets::union(all, sets::rows::together(table, outs_at(level), channels));
    }
    all
}

// Whether anybody has sent on any channel of `channels`.
pub(crate) fn heard(table: &Table, channels: Set) -> bool
    ensures { Decides result (Sounding table.now (Has channels)) }
{
    !sets::is_empty(sent(table, channels))
}

// What has been sent in `old`, at any level, on each channel of `channels` is joined to the channel's in set at `level` in `new`.
pub(crate) fn gather(new: &mut Table, level: u8, channels: Set, old: &Table)
    requires { level < levels }
    ensures { Joins new.old new.new (Over (ins_at level) (Has channels) (SentOn old.now levels)) }
{
    for from in 0..LEVELS {
        sets::rows::merge(new, ins_at(level), old, outs_at(from), channels);
    }
}

// The table's sets as a solution.
pub(crate) fn solution_of(table: &Table) -> Solution
    ensures { Unpacked table.now result }
{
    let mut solution = Solution::empty();
    sets::rows::copy(&mut solution.binders, table, 0);
    sets::rows::copy(&mut solution.ins, table, INS);
    sets::rows::copy(&mut solution.outs, table, OUTS);
    solution
}
