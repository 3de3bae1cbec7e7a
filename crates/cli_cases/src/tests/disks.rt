// Disks whose partition is the small container, and the cases of `--gpt` on them.
use crate::tests::cases::Case;
use crate::tests::cases::Ends::*;
use crate::tests::checks::SMALL_REPORT;
use crate::tests::images::Image;
use img_make::{table, write};
use std::alloc::{AllocError, Global};

// The partition's first sector.
const FIRST: usize = 40;

// The type of a partition that holds a container, as it is stored.
const CONTAINER_TYPE: &[u8] = &[
    0xef, 0x57, 0x34, 0x7c, 0x00, 0x00, 0xaa, 0x11, 0xaa, 0x11, 0x00, 0x30, 0x65, 0x43, 0xec, 0xac,
];

/// A disk with a table of 128 entries of 128 bytes, from the third sector on, whose first entry is the container's.
#[derive(Clone, Copy)]
pub struct Disk {
    /// How many bytes a sector has.
    pub sector: usize,
    /// The partition's last sector.
    pub last: u16,
    /// What is written then: a sector, a byte in it, and bytes from there on.
    pub other: (usize, usize, &'static [u8]),
    /// How many bytes are handed in.
    pub length: usize,
}

// 2,088 sectors of 512 bytes.
pub const DISK: Disk = Disk {
    sector: 512,
    last: 2087,
    other: (0, 0, &[]),
    length: 2088 * 512,
};

// 296 sectors of 4,096 bytes.
const LARGE: Disk = Disk {
    sector: 4096,
    last: 295,
    other: (0, 0, &[]),
    length: 296 * 4096,
};

// Without its last sector.
const CUT: Disk = Disk {
    length: 2087 * 512,
    ..DISK
};

// The partition's type begins with another byte.
const OTHER_TYPE: Disk = Disk {
    other: (2, 0, &[0]),
    ..DISK
};

// An entry has 127 bytes.
const ODD_ENTRIES: Disk = Disk {
    other: (1, 84, &[127]),
    ..DISK
};

/// The sectors before the partition, without a table.
pub fn sectors(alloc: Global, disk: Disk) -> Result<Vec<u8>, AllocError> {
    vec![in alloc; 0u8; disk.sector.saturating_mul(FIRST)]
}

// What all tables have: a sector, a byte in it, and bytes from there on.
const TABLE: &[(usize, usize, &[u8])] = &[
    (1, 0, b"EFI PART"),
    (1, 72, &[2]),
    (1, 80, &[128]),
    (1, 84, &[128]),
    (2, 0, CONTAINER_TYPE),
    (2, 32, &[40]),
];

/// Writes the table. Answers whether the disk has room for it.
pub fn write_table(bytes: &mut [u8], disk: Disk) -> bool {
    for (block, at, part) in TABLE {
        if !write(bytes, disk.sector, *block, *at, part) {
            return false;
        }
    }
    let (block, at, other) = disk.other;
    write(bytes, disk.sector, 2, 40, &disk.last.to_le_bytes())
        && write(bytes, disk.sector, block, at, other)
}

pub const GPT_CHECK: &[&str] = &["--gpt", "check", "x"];

pub const GPT_RING: &[&str] = &["--gpt", "ring", "x"];

pub const DISK_CASES: &[Case] = table! {
    "clean_gpt_check", Image::Disk(DISK), GPT_CHECK, Wrote(SMALL_REPORT);
    "clean_gpt_check_large_sectors", Image::Disk(LARGE), GPT_CHECK, Wrote(SMALL_REPORT);
    "fault_block_zero_disk", Image::Disk(DISK), &["check", "x"], Faulty("apfs: fault: BlockZero\n");
    "fault_gpt_no_table", Image::Ring, GPT_RING, Faulty("apfs: fault: Gpt NoTable\n");
    "fault_gpt_bad_table", Image::Disk(ODD_ENTRIES), GPT_CHECK, Faulty("apfs: fault: Gpt BadTable\n");
    "fault_gpt_no_partition", Image::Disk(OTHER_TYPE), GPT_CHECK, Faulty("apfs: fault: Gpt NoPartition\n");
    "fault_gpt_part_outside", Image::Disk(CUT), GPT_CHECK, Faulty("apfs: fault: Gpt PartOutside entry 0\n");
    "answer_no_image_gpt", Image::Absent, GPT_RING, NoImage;
    "words_gpt_alone", Image::Disk(DISK), &["--gpt"], Usage;
    "words_gpt_twice", Image::Disk(DISK), &["--gpt", "--gpt", "ring", "x"], Usage;
    "words_gpt_after_the_command", Image::Disk(DISK), &["ring", "--gpt", "x"], Usage;
};
