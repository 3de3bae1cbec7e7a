// The partition of a disk that holds a container.
ghost use Rattle.std.specs.Prelude.{◌≡◌, ◌+◌, ◌≤◌, ℕ, List, Some, Ok, true, false, IfOk, IfErr, IsErrOf, OnErr, MatchOption};
ghost use Rattle.apfs_model.specs.Bytes.{part_at};
ghost use Rattle.apfs_model.specs.Counts.{Rose};
ghost use Rattle.apfs_model.specs.Kept.{IsKept};
ghost use Rattle.img_gpt.specs.Table.{has_header, sector_of, container_entry, entry_at};
ghost use Rattle.img_gpt.specs.Partition.{found_part, HasTable};
ghost use Rattle.img_gpt.specs.Laws.{IsTableStop};
ghost use Rattle.img_gpt.specs.Reads.{IsWithin, IsTableOf};
ghost use Rattle.img_gpt.specs.declared.part.GptStop.TheVariants.{ReadFault};

use crate::part::{GptStop, Part};
use crate::partition_table::{HEADER_LEN, PART_LEN};
use crate::table::{Table, part_in, table_in};
use blk_source::BlockSource;

// The bytes with which a header begins.
const HEADER_MARK: [u8; 8] = *b"EFI PART";

// The sizes of a sector, in bytes. The header stands in the second sector.
const SMALL_SECTOR: u64 = 512;

const LARGE_SECTOR: u64 = 4096;

// The type of a partition that holds a container, 7C3457EF-0000-11AA-AA11-00306543ECAC, as it is stored.
const CONTAINER_TYPE: [u8; 16] = [
    0xef, 0x57, 0x34, 0x7c, 0x00, 0x00, 0xaa, 0x11, 0xaa, 0x11, 0x00, 0x30, 0x65, 0x43, 0xec, 0xac,
];

// Some bytes of a disk, which lie in it.
fn read<S: BlockSource, const N: usize>(src: &mut S, at: u64) -> Result<[u8; N], GptStop>
    requires inside { at + N ≤ S.bytes_len src.old }
    requires some { 1 ≤ N }
    requires short { N ≤ 65536 }
    ensures found { (disk : List ℕ) → S.bytes src.old ≡ Some disk → IfOk result (λ bytes. bytes ≡ part_at disk at N) }
    ensures only { IfErr result (λ stop. stop ≡ ReadFault) }
    ensures cause { OnErr result (Rose (S.faults src.old) (S.faults src.new)) }
    ensures kept { IsKept S.bytes S.bytes_len S.faults src.old src.new }
{
    let mut bytes = [0u8; N];
    src.read_at(at, &mut bytes)?;
    Ok(bytes)
}

// The header at a place, where one stands there.
fn header_at<S: BlockSource>(src: &mut S, at: u64) -> Result<Option<[u8; HEADER_LEN]>, GptStop>
    requires { at ≤ 4096 }
    ensures found { (disk : List ℕ) → S.bytes src.old ≡ Some disk → IfOk result (λ found. MatchOption found (has_header disk at ≡ false) (λ header. (has_header disk at ≡ true) × (header ≡ part_at disk at 92))) }
    ensures only { IfErr result (λ stop. stop ≡ ReadFault) }
    ensures cause { OnErr result (Rose (S.faults src.old) (S.faults src.new)) }
    ensures kept { IsKept S.bytes S.bytes_len S.faults src.old src.new }
{
    if src.size() < at + HEADER_LEN as u64 {
        return Ok(None);
    }
    let header: [u8; HEADER_LEN] = read(src, at)?;
    if header[..HEADER_MARK.len()] == HEADER_MARK[..] {
        return Ok(Some(header));
    }
    Ok(None)
}

// The size of a sector, and the header.
fn find_header<S: BlockSource>(src: &mut S) -> Result<(u64, [u8; HEADER_LEN]), GptStop>
    ensures found { (disk : List ℕ) → S.bytes src.old ≡ Some disk → IfOk result (λ found. (sector_of disk ≡ Some found.0) × (found.1 ≡ part_at disk found.0 92)) }
    ensures fault { (disk : List ℕ) → S.bytes src.old ≡ Some disk → IfErr result (IsTableStop disk) }
    ensures sector { IfOk result (λ found. 1 ≤ found.0) }
    ensures cause { IsErrOf result ReadFault → Rose (S.faults src.old) (S.faults src.new) }
    ensures kept { IsKept S.bytes S.bytes_len S.faults src.old src.new }
{
    if let Some(header) = header_at(src, SMALL_SECTOR)? {
        return Ok((SMALL_SECTOR, header));
    }
    match header_at(src, LARGE_SECTOR)? {
        Some(header) => Ok((LARGE_SECTOR, header)),
        None => Err(GptStop::NoTable),
    }
}

// The table of a disk.
fn find_table<S: BlockSource>(src: &mut S) -> Result<Table, GptStop>
    ensures found { (disk : List ℕ) → S.bytes src.old ≡ Some disk → IfOk result (λ table. HasTable disk table.sector × IsTableOf disk table) }
    ensures fault { (disk : List ℕ) → S.bytes src.old ≡ Some disk → IfErr result (IsTableStop disk) }
    ensures inside { IfOk result (IsWithin (S.bytes_len src.old)) }
    ensures cause { IsErrOf result ReadFault → Rose (S.faults src.old) (S.faults src.new) }
    ensures kept { IsKept S.bytes S.bytes_len S.faults src.old src.new }
{
    let size = src.size();
    let (sector, header) = find_header(src)?;
    match table_in(&header, sector, size) {
        Some(table) => Ok(table),
        None => Err(GptStop::BadTable),
    }
}

// The first entry of the type, with its number.
fn find_entry<S: BlockSource>(src: &mut S, table: &Table) -> Result<(u32, [u8; PART_LEN]), GptStop>
    requires { IsWithin (S.bytes_len src.old) table.now }
    ensures found { (disk : List ℕ) → S.bytes src.old ≡ Some disk → IsTableOf disk table.now → IfOk result (λ found. (container_entry disk table.now.sector ≡ Some found.0) × (found.1 ≡ part_at disk (entry_at disk table.now.sector found.0) 48)) }
    ensures fault { (disk : List ℕ) → S.bytes src.old ≡ Some disk → HasTable disk table.now.sector → IsTableOf disk table.now → IfErr result (IsTableStop disk) }
    ensures cause { IsErrOf result ReadFault → Rose (S.faults src.old) (S.faults src.new) }
    ensures kept { IsKept S.bytes S.bytes_len S.faults src.old src.new }
{
    'entries: for at in 0..table.count {
        let place = table.entries + u64::from(at) * u64::from(table.size);
        let entry: [u8; PART_LEN] = read(src, place)?;
        if entry[..CONTAINER_TYPE.len()] == CONTAINER_TYPE[..] {
            return Ok((at, entry));
        }
    }
    Err(GptStop::NoPartition)
}

/// Where the partition that holds a container lies on a disk, by its GUID partition table, or the first of the four faults for
/// which there is none: `NoTable`, `BadTable`, `NoPartition`, `PartOutside`. Takes no memory.
pub fn find_part<S: BlockSource>(src: &mut S) -> Result<Part, GptStop>
    ensures found { (disk : List ℕ) → S.bytes src.old ≡ Some disk → IfOk result (λ part. found_part disk ≡ Ok part) }
    ensures fault { (disk : List ℕ) → S.bytes src.old ≡ Some disk → IfErr result (IsTableStop disk) }

    // Whether or not the bytes are told.
    ensures inside { IfOk result (λ part. part.start + part.length ≤ S.bytes_len src.old) }
    ensures cause { IsErrOf result ReadFault → Rose (S.faults src.old) (S.faults src.new) }
    ensures kept { IsKept S.bytes S.bytes_len S.faults src.old src.new }
{
    let size = src.size();
    let table = find_table(src)?;
    let (at, entry) = find_entry(src, &table)?;
    match part_in(&entry, table.sector, size) {
        Some(part) => Ok(part),
        None => Err(GptStop::PartOutside { at }),
    }
}
