// Rows of numbers, where 0 stands for no list and 1 + v for the optimum v.
ghost use Rattle.std.specs.Prelude.{◌≡◌, ℕ, ◌+◌, ◌-◌, ◌<◌, ◌^◌, length, slice_index, max, ◌==◌, if◌then◌else◌};
ghost use Rattle.race_core.specs.declared.entry.Entry.{Entry};
ghost use Rattle.relaxed_moves.specs.Columns.{coded};
ghost use Rattle.table_bound.specs.Bounds.{entry_by};

use race_core::Entry;

// The optimum that an entry says.
pub(crate) fn optimum_in(entry: Entry) -> Option<u32>
    ensures { entry ≡ entry_by result }
{
    match entry {
        Entry::NoList => None,
        Entry::Best(most) => Some(most),
    }
}

// The optimum that a number of a row stands for.
pub(crate) fn optimum_of_number(number: u32) -> Option<u32>
    ensures { number ≡ coded result }
{
    match number {
        0 => None,
        _ => Some(number - 1),
    }
}

// The entry that says what a number of a row stands for.
pub(crate) fn entry_of_number(number: u32) -> Entry
    ensures { (o : _) → number ≡ coded o → result ≡ entry_by o }
{
    match number {
        0 => Entry::NoList,
        _ => Entry::Best(number - 1),
    }
}

// The number of a row that stands for what an entry says.
pub(crate) fn number_of_entry(entry: Entry) -> u32
    requires { (o : _) → entry ≡ entry_by o → coded o < 2 ^ 32 }
    ensures { (o : _) → entry ≡ entry_by o → result ≡ coded o }
{
    match entry {
        Entry::NoList => 0,
        Entry::Best(most) => 1 + most,
    }
}

// Makes a row that of the empty list: no bucket is left only in bucket 0.
pub(crate) fn begin(row: &mut [u32])
    ensures { (bucket : ℕ) → bucket < length row.old → slice_index row.new bucket ≡ (if bucket == 0 then 1 else 0) }
{
    for (bucket, number) in row.iter_mut().enumerate() {
        *number = u32::from(bucket == 0);
    }
}

// Moves a row up by some places; the first number also takes the places that become free.
pub(crate) fn move_up(row: &mut [u32], down: usize)
    ensures { (bucket : ℕ) → bucket < length row.old → slice_index row.new bucket ≡ slice_index row.old (bucket - down) }
{
    for bucket in (0..row.len()).rev() {
        row[bucket] = row[bucket.saturating_sub(down)];
    }
}

// Gives the number at a place to each place below it.
pub(crate) fn spread(row: &mut [u32], place: usize)
    requires { place < length row.old }
    ensures { (bucket : ℕ) → bucket < length row.old → slice_index row.new bucket ≡ slice_index row.old (max bucket place) }
{
    for below in 0..place {
        row[below] = row[place];
    }
}
