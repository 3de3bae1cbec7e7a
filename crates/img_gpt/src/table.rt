// The table of a disk by its header, and a partition by its entry.
ghost use Rattle.std.specs.Prelude.{◌≡◌, ◌+◌, ◌*◌, ◌≤◌, ◌&&◌, nat_le, ℕ, List, true, false, length, IfSome, MatchOption};
ghost use Rattle.apfs_model.specs.Bytes.{part_at};
ghost use Rattle.img_gpt.specs.Table.{is_entry_size, is_table, entry_at};
ghost use Rattle.img_gpt.specs.Partition.{part_of, is_placed};
ghost use Rattle.img_gpt.specs.Reads.{IsWithin, IsTableOf};

use crate::part::Part;
use crate::partition_table::{ENTRY_COUNT, ENTRY_SIZE, FIRST_SECTOR, PART_FIRST, PART_LAST};
use obj_base::{u32_at, u64_at};

// Where the entries of a table lie on a disk, in bytes, how many there are, and how many bytes each has.
#[derive(Clone, Copy)]
pub(crate) struct Table {
    pub sector: u64,
    pub entries: u64,
    pub count: u32,
    pub size: u32,
}

// Whether a number stands between two others, or is one of them.
fn is_between(low: u32, number: u32, high: u32) -> bool
    ensures { result ≡ (nat_le low number && nat_le number high) }
{
    low <= number && number <= high
}

// Whether an entry may have so many bytes.
#[tactic(auto, using(crate::proofs::Tables::multiple_is))]
fn is_size(size: u32) -> bool
    ensures { result ≡ is_entry_size size }
{
    size % 8 == 0 && is_between(128, size, 4096)
}

// Whether so many bytes from a place on lie in a disk of a size.
fn lies_in(at: u64, len: u64, disk_size: u64) -> bool
    ensures { result ≡ nat_le (at + len) disk_size }
{
    match at.checked_add(len) {
        Some(end) => end <= disk_size,
        None => false,
    }
}

// Whether entries of a size lie in a disk.
fn has_room(entries: u64, count: u32, size: u32, disk_size: u64) -> bool
    ensures { result ≡ (is_entry_size size && nat_le (entries + count * size) disk_size) }
{
    is_size(size) && lies_in(entries, u64::from(count) * u64::from(size), disk_size)
}

// The table of a header, on a disk of a size with sectors of a size. None where the numbers are no table's, or its entries
// don't lie in the disk.
pub(crate) fn table_in(header: &[u8], sector: u64, disk_size: u64) -> Option<Table>
    requires header { length header.now ≡ 92 }
    requires sector { 1 ≤ sector }
    ensures table { (disk : List ℕ) → length disk ≡ disk_size → header.now ≡ part_at disk sector 92 → MatchOption result (is_table disk sector ≡ false) (λ table. (table.sector ≡ sector) × (is_table disk sector ≡ true) × IsTableOf disk table) }
    ensures inside { IfSome result (IsWithin disk_size) }
{
    let count = u32_at(header, ENTRY_COUNT);
    let size = u32_at(header, ENTRY_SIZE);
    let Some(entries) = u64_at(header, FIRST_SECTOR).checked_mul(sector) else {
        return None;
    };
    if is_between(1, count, 1024) && has_room(entries, count, size, disk_size) {
        return Some(Table {
            sector,
            entries,
            count,
            size,
        });
    }
    None
}

// The partition of an entry, on a disk of a size with sectors of a size. None where it ends before it begins, or doesn't lie in
// the disk.
pub(crate) fn part_in(entry: &[u8], sector: u64, disk_size: u64) -> Option<Part>
    requires entry { length entry.now ≡ 48 }
    requires sector { 1 ≤ sector }
    ensures part { (disk : List ℕ) (i : ℕ) → length disk ≡ disk_size → entry.now ≡ part_at disk (entry_at disk sector i) 48 → MatchOption result (is_placed disk sector i ≡ false) (λ part. (is_placed disk sector i ≡ true) × (part ≡ part_of disk sector i)) }
    ensures inside { IfSome result (λ part. part.start + part.length ≤ disk_size) }
{
    let first = u64_at(entry, PART_FIRST);
    let last = u64_at(entry, PART_LAST);
    let Some(start) = first.checked_mul(sector) else {
        return None;
    };
    let Some(after) = last.checked_add(1) else {
        return None;
    };
    let Some(end) = after.checked_mul(sector) else {
        return None;
    };
    if first <= last && end <= disk_size {
        return Some(Part {
            start,
            length: end - start,
        });
    }
    None
}
