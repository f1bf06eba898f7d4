// Rows of sets, lent, of any length. Part of a row is one set for each channel; `base` and `start` say where such a part begins.
// They stand beside the row, and the part is not lent: the public signatures have them, and `Joins` speaks of the row as a whole.
ghost use Rattle.std.specs.Prelude.{◌≡◌, ℕ, ◌+◌, ◌<◌, ◌≤◌, length};
ghost use Rattle.limits.specs.Limits.{most_channels};
ghost use Rattle.sets.specs.Set.{Has, Members, Narrow, Decides};
ghost use Rattle.sets.specs.Rows.{set_at, Joins, Only, Over, From, Together, Copied};

use crate::walk::members;
use crate::{Set, empty, union};

// The set at a place.
pub fn at(row: &[Set], place: usize) -> Set
    requires { place < length row.now }
    ensures value { result ≡ set_at row.now place }
    ensures narrow { Narrow most_channels result }
{
    row[place]
}

// `set` is joined to what stands at a place.
pub fn join_at(row: &mut [Set], place: usize, set: Set)
    requires { place < length row.old }
    ensures joins { Joins row.old row.new (Only place set) }
    ensures row_len_unchanged { length row.new ≡ length row.old }
{
    row[place] = union(row[place], set);
}

// `set` is joined to what stands at each channel of `channels` from `base` on.
pub fn spread(row: &mut [Set], base: usize, channels: Set, set: Set)
    requires { base + most_channels ≤ length row.old }
    ensures joins { Joins row.old row.new (Over base (Has channels) (λ c. Has set)) }
    ensures row_len_unchanged { length row.new ≡ length row.old }
{
    join_each(row, base, channels, |_| set);
}

// What stands at each channel of `channels` from `start` on in `from` is joined to what stands at it from `base` on in `row`.
pub fn merge(row: &mut [Set], base: usize, from: &[Set], start: usize, channels: Set)
    requires { (base + most_channels ≤ length row.old) × (start + most_channels ≤ length from.now) }
    ensures joins { Joins row.old row.new (Over base (Has channels) (From from.now start)) }
    ensures row_len_unchanged { length row.new ≡ length row.old }
{
    join_each(row, base, channels, |c| from[start + c]);
}

// The set that `what` gives for a channel is joined to what stands at it from `base` on, at each channel of `channels`.
fn join_each<F: Fn(usize) -> Set>(row: &mut [Set], base: usize, channels: Set, what: F)
    requires fits { base + most_channels ≤ length row.old }
    requires callable { (c : ℕ) → c < most_channels → F.pre what c }
    ensures joins { (sets : ℕ → ℕ) → ((c set : ℕ) → F.post what c set → set ≡ sets c)
        → Joins row.old row.new (Over base (Has channels) (λ c. Has (sets c))) }
    ensures row_len_unchanged { length row.new ≡ length row.old }
{
    for c in members(channels) {
        join_at(row, base + c, what(c));
    }
}

// The union of what stands at the channels of `channels` from `start` on.
pub fn together(from: &[Set], start: usize, channels: Set) -> Set
    requires { start + most_channels ≤ length from.now }
    ensures { Members result (Together from.now start (Has channels)) }
{
    let mut all = empty();
    for c in members(channels) {
        all = union(all, from[start + c]);
    }
    all
}

// As many sets as `into` has places are copied to it, from `start` on.
pub fn copy(into: &mut [Set], from: &[Set], start: usize)
    requires { start + length into.old ≤ length from.now }
    ensures { Copied into.old from.now start into.new }
{
    into.copy_from_slice(&from[start..start + into.len()]);
}

// Whether two rows, of any length, hold the same sets in the same order.
pub fn same(a: &[Set], b: &[Set]) -> bool
    ensures { Decides result (a.now ≡ b.now) }
{
    a == b
}
