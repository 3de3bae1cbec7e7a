// Disks written field by field by the numbers of the UEFI specification, and each call once.
ghost use Rattle.std.specs.Prelude.{◌≡◌, ◌≤◌, Some, length};

use apfs_model::ReadFailed;
use blk_source::{BlockSource, MemSource, SureSource};
use img_gpt::{GptStop, Origin, Part, Slice, find_part, part_or_fault};
use std::alloc::{AllocError, Global};
use std::marker::Brand;

// The type of a partition with a container, 7C3457EF-0000-11AA-AA11-00306543ECAC, its first three parts with the lowest byte first.
const CONTAINER_TYPE: [u8; 16] = [
    0xef, 0x57, 0x34, 0x7c, 0x00, 0x00, 0xaa, 0x11, 0xaa, 0x11, 0x00, 0x30, 0x65, 0x43, 0xec, 0xac,
];

// Another type: an EFI system partition.
const SYSTEM_TYPE: [u8; 16] = [
    0x28, 0x73, 0x2a, 0xc1, 0x1f, 0xf8, 0xd2, 0x11, 0xba, 0x4b, 0x00, 0xa0, 0xc9, 0x3e, 0xc9, 0x3b,
];

// Which of these an entry has.
#[derive(Clone, Copy)]
enum Kind {
    Container,
    System,
}

use Kind::{Container, System};

// An entry: its number, its type, and the first and the last sector of its partition.
type Entry = (u32, Kind, u64, u64);

// A disk with a table: its sectors, its entries, and the two of them that are no zeros.
#[derive(Clone, Copy)]
struct Disk {
    sector: usize,
    sectors: usize,
    entries: u64,
    count: u32,
    size: u32,
    one: Entry,
    other: Entry,
}

// 2,088 sectors of 512 bytes, with 128 entries of 128 bytes from sector 2, the first of which is a container's partition from
// sector 40 to the last.
const PLAIN: Disk = Disk {
    sector: 512,
    sectors: 2088,
    entries: 2,
    count: 128,
    size: 128,
    one: (0, Container, 40, 2087),
    other: (3, System, 34, 39),
};

// Writes bytes where the disk has them, at an offset from a start.
fn put(bytes: &mut Vec<u8>, start: usize, offset: usize, part: &[u8]) {
    let at = start.saturating_add(offset);
    if at <= bytes.len() && part.len() <= bytes.len() - at {
        bytes[at..at + part.len()].copy_from_slice(part);
    }
}

// Writes an entry.
fn put_entry(bytes: &mut Vec<u8>, disk: &Disk, entry: Entry) {
    let (number, kind, first, last) = entry;
    let offset = u64::from(number).saturating_mul(u64::from(disk.size));
    let start = disk.entries.saturating_mul(disk.sector as u64);
    let at = start.saturating_add(offset) as usize;
    let kind = match kind {
        Container => &CONTAINER_TYPE,
        System => &SYSTEM_TYPE,
    };
    put(bytes, at, 0, kind);
    put(bytes, at, 32, &first.to_le_bytes());
    put(bytes, at, 40, &last.to_le_bytes());
}

fn bytes_of(alloc: Global, disk: &Disk) -> Result<Vec<u8>, AllocError> {
    let mut bytes = vec![in alloc; 0u8; disk.sector.saturating_mul(disk.sectors)]?;
    put(&mut bytes, disk.sector, 0, b"EFI PART");
    put(&mut bytes, disk.sector, 72, &disk.entries.to_le_bytes());
    put(&mut bytes, disk.sector, 80, &disk.count.to_le_bytes());
    put(&mut bytes, disk.sector, 84, &disk.size.to_le_bytes());
    put_entry(&mut bytes, disk, disk.one);
    put_entry(&mut bytes, disk, disk.other);
    Ok(bytes)
}

// Where a partition begins and how long it is, or why none is found.
type Found = Result<(u64, u64), GptStop>;

// What is found on a disk.
fn found(alloc: Global, disk: &Disk) -> Result<Found, AllocError> {
    match find_part(&mut SureSource::new(bytes_of(alloc, disk)?)) {
        Ok(part) => Ok(Ok((part.start, part.length))),
        Err(stop) => Ok(Err(stop)),
    }
}

const LARGE: Disk = Disk {
    sector: 4096,
    sectors: 300,
    one: (127, Container, 7, 262),
    other: (0, System, 6, 6),
    ..PLAIN
};

// 1,024 entries of 4,096 bytes, of which the last is a container's.
const MANY: Disk = Disk {
    sectors: 9000,
    entries: 3,
    count: 1024,
    size: 4096,
    one: (1023, Container, 8201, 8201),
    other: (0, System, 8200, 8200),
    ..PLAIN
};

// The first of two.
const TWO: Disk = Disk {
    one: (5, Container, 41, 50),
    other: (6, Container, 60, 70),
    ..PLAIN
};

// `PLAIN` but for some fields.
macro_rules! plain_but {
    ($($field:ident: $value:expr),+) => {
        Disk { $($field: $value),+, ..PLAIN }
    };
}

// `PLAIN` with another partition, in entry 2.
macro_rules! one {
    ($first:expr, $last:expr) => {
        plain_but!(one: (2, Container, $first, $last), other: (0, System, 34, 39))
    };
}

const NONE: Disk = plain_but!(one: (0, System, 40, 2087), other: (127, System, 34, 39));

const PLAIN_PART: Part = Part {
    start: 20_480,
    length: 1_048_576,
};

// Disks, and what is found on them or told of them.
const DISKS: &[(Disk, Found)] = &[
    (PLAIN, Ok((20_480, 1_048_576))),
    (LARGE, Ok((28_672, 1_048_576))),
    (MANY, Ok((4_198_912, 512))),
    (TWO, Ok((20_992, 5_120))),
    (plain_but!(sectors: 1), Err(GptStop::NoTable)),
    (plain_but!(size: 127), Err(GptStop::BadTable)),
    (plain_but!(size: 132), Err(GptStop::BadTable)),
    (plain_but!(size: 4104), Err(GptStop::BadTable)),
    (plain_but!(count: 0), Err(GptStop::BadTable)),
    (plain_but!(count: 1025), Err(GptStop::BadTable)),
    (plain_but!(entries: u64::MAX), Err(GptStop::BadTable)),
    (plain_but!(entries: 2057), Err(GptStop::BadTable)),
    (NONE, Err(GptStop::NoPartition)),
    (
        plain_but!(sectors: 2087),
        Err(GptStop::PartOutside { at: 0 }),
    ),
    (one!(41, 40), Err(GptStop::PartOutside { at: 2 })),
    (one!(0, u64::MAX), Err(GptStop::PartOutside { at: 2 })),
    (
        one!(u64::MAX, u64::MAX),
        Err(GptStop::PartOutside { at: 2 }),
    ),
    (one!(1 << 55, 1 << 55), Err(GptStop::PartOutside { at: 2 })),
];

#[test]
fn a_partition_is_found_and_faults_are_told_in_their_order(rt: HostRuntime) {
    for (i, (disk, wanted)) in DISKS.iter().enumerate() {
        assert!(rt; found(rt.alloc(), disk) == Ok(*wanted), "disk {i}");
    }
}

#[test]
fn a_table_without_entries_has_no_partition(rt: HostRuntime) {
    let mut bytes = bytes_of(rt.alloc(), &PLAIN).ok().expect(&rt, "memory");
    put(&mut bytes, 1024, 0, &[0]);
    assert!(rt; find_part(&mut SureSource::new(bytes)) == Err(GptStop::NoPartition));
}

// A header at 4,096 that is cut off is none; one of 92 bytes is one.
const CUT: &[(usize, GptStop)] = &[(4187, GptStop::NoTable), (4188, GptStop::BadTable)];

fn found_in_cut(alloc: Global, len: usize) -> Result<Option<GptStop>, AllocError> {
    let mut bytes = vec![in alloc; 0u8; len]?;
    put(&mut bytes, 4096, 0, b"EFI PART");
    Ok(find_part(&mut SureSource::new(bytes)).err())
}

#[test]
fn a_header_lies_in_the_disk(rt: HostRuntime) {
    for (len, stop) in CUT {
        assert!(rt; found_in_cut(rt.alloc(), *len) == Ok(Some(*stop)));
    }
}

// The read that fails, what is found, and how many reads are made and fail. The search reads the header, and the entry that is a
// container's.
const FAILED: &[(u64, Result<Part, GptStop>, (u64, u64))] = &[
    (1, Err(GptStop::ReadFault), (1, 1)),
    (2, Err(GptStop::ReadFault), (2, 1)),
    (3, Ok(PLAIN_PART), (2, 0)),
];

fn is_told(
    alloc: Global,
    fails: u64,
    answer: Result<Part, GptStop>,
    counts: (u64, u64),
) -> Result<bool, AllocError> {
    let bytes = bytes_of(alloc, &PLAIN)?;
    let mut source = MemSource::new(bytes, vec![in alloc; fails]?);
    Ok(find_part(&mut source) == answer && (source.read_count(), source.fault_count()) == counts)
}

#[test]
fn a_failed_read_is_told(rt: HostRuntime) {
    for (fails, answer, counts) in FAILED {
        assert!(rt;
            is_told(rt.alloc(), *fails, *answer, *counts) == Ok(true),
            "{fails}"
        );
    }
}

// What is read through a slice, whether a read that is refused fails, its length, and the size, the reads and the failures of the source
// that it gives back.
type Through = ([u8; 2], bool, u64, (u64, u64, u64));

fn through<O: Origin>(source: MemSource) -> Result<Through, ReadFailed>
    requires inside { 4 ≤ length source.bytes }
    requires size { length source.bytes ≡ O.size }
    requires bytes { Some source.bytes ≡ O.bytes }
{
    let mut slice = Slice::<MemSource, O>::new(source, 1, 3);
    let mut into = [0u8; 2];
    slice.read_at(1, &mut into)?;
    let refused = slice.read_at(0, &mut [0u8; 2]).is_err();
    let length = slice.size();
    let source = slice.into_inner();
    let counts = (source.size(), source.read_count(), source.fault_count());
    Ok((into, refused, length, counts))
}

const PART_READ: Through = ([3, 4], true, 3, (5, 2, 1));

#[test]
fn a_slice_reads_its_part(rt: HostRuntime) {
    let alloc = rt.alloc();
    let bytes = vec![in alloc; 1, 2, 3, 4, 5].ok().expect(&rt, "memory");
    let fails = vec![in alloc; 2].ok().expect(&rt, "memory");
    let source = MemSource::new(bytes, fails);
    assert!(rt; through::<Brand>(source) == Ok(PART_READ));
    part_or_fault();
}
