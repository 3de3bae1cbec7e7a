// Which extent of a stream covers a byte, and how far it goes on.
ghost use Rattle.std.specs.Prelude.{◌≡◌, ◌+◌, ◌-◌, ◌<◌, ◌≤◌, ℕ, true, length, slice_get, Some};
ghost use Rattle.fs_record.specs.declared.extents.FileExt.{FileExt};
ghost use Rattle.file_extent.specs.Laid.{are_rising, IsPart};

use fs_record::FileExt;

/// A part of a stream that one extent covers, or none does.
#[derive(Clone, Copy)]
pub(crate) struct Part {
    pub extent: Option<FileExt>,
    /// How many bytes it has.
    pub left: u64,
}

// How many extents begin at a byte or before it, by halves.
fn begun(extents: &[FileExt], i: u64) -> usize
    ensures inside { result ≤ length extents.now }
    ensures before { (k : ℕ) (e : FileExt) → k + 1 ≡ result → slice_get extents.now k ≡ Some e → e.logical ≤ i }
    ensures after { (e : FileExt) → slice_get extents.now result ≡ Some e → i < e.logical }
{
    let mut low = 0;
    let mut high = extents.len();
    'halve: while low < high {
        let middle = low + (high - low) / 2;
        if extents[middle].logical <= i {
            low = middle + 1;
        } else {
            high = middle;
        }
    }
    low
}

// Where the extent of a number starts, or the greatest number where there is none.
fn start_of(extents: &[FileExt], n: usize, i: u64) -> u64
    requires low { i < 18446744073709551615 }
    requires after { (e : FileExt) → slice_get extents.now n ≡ Some e → i < e.logical }
    ensures later { i < result }
    ensures start { (e : FileExt) → slice_get extents.now n ≡ Some e → result ≡ e.logical }
{
    if n < extents.len() {
        extents[n].logical
    } else {
        u64::MAX
    }
}

// The last extent that begins at a byte or before it, where `n` of them do.
fn last_begun(extents: &[FileExt], n: usize, i: u64) -> FileExt
    requires some { 0 < n }
    requires inside { n ≤ length extents.now }
    requires before { (k : ℕ) (e : FileExt) → k + 1 ≡ n → slice_get extents.now k ≡ Some e → e.logical ≤ i }
    ensures at { slice_get extents.now (n - 1) ≡ Some result }
    ensures begun { result.logical ≤ i }
{
    extents[n - 1]
}

/// The part of a stream that starts at a byte.
pub(crate) fn part_at(extents: &[FileExt], i: u64) -> Part
    requires rising { are_rising 0 extents.now ≡ true }
    requires low { i < 18446744073709551615 }
    ensures part { IsPart extents.now i result.extent result.left }
{
    let n = begun(extents, i);
    let next = start_of(extents, n, i);
    if n == 0 {
        return Part {
            extent: None,
            left: next - i,
        };
    }
    let extent = last_begun(extents, n, i);
    if i - extent.logical < extent.length {
        return Part {
            extent: Some(extent),
            left: extent.length - (i - extent.logical),
        };
    }
    Part {
        extent: None,
        left: next - i,
    }
}
