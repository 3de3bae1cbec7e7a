// The cases of `usage`. Its numbers were worked out by hand from the plans of the images.
use crate::tests::cases::Ends::*;
use crate::tests::cases::{Case, NO_VOLUME};
use crate::tests::checks::{LEAKED, MARKED};
use crate::tests::disks::DISK;
use crate::tests::images::Image::*;
use crate::tests::images::{Image, VOLUME};
use apfs_layout::volume;
use img_make::{Sample, table};

pub const USAGE: &[&str] = &["usage", "x"];

const OF_SECOND: &[&str] = &["usage", "x", "--volume", "1"];

// A file, each of whose two snapshots kept the leaf that is changed since and has its own superblock and extent references.
pub const VIEWS_USED: &str = "live held 4 only 1\n2 s2 held 5 only 3\n4 s4 held 5 only 2\nall 9\n";

// Two files share the one block of their contents.
const SHARED: Image = Made((Sample::C, &[], &[]), &[]);

// Two volumes; the second has a file of one block.
const TWO: Image = Made((Sample::T, &[], &[]), &[]);

pub const USAGE_CASES: &[Case] = table! {
    "words_usage_quick", Views, &["usage", "x", "--quick"], Usage;
    "answer_no_image_usage", Absent, USAGE, NoImage;
    "clean_usage_views", Views, USAGE, Wrote(VIEWS_USED);
    "clean_usage_names", ViewsNamed("s\n2"), USAGE, Wrote("live held 4 only 1\n2 s\\x0a2 held 5 only 3\n4 s4 held 5 only 2\nall 9\n");
    "clean_usage_shared", SHARED, USAGE, Wrote("live held 3 only 3\nall 3\n");
    "clean_usage_volume", TWO, OF_SECOND, Wrote("live held 3 only 3\nall 3\n");
    "clean_usage_of_a_disk", Disk(DISK), &["--gpt", "usage", "x"], Wrote("live held 2 only 2\nall 2\n");
    "answer_no_volume_usage", Views, OF_SECOND, Answered(NO_VOLUME);
    "answer_no_volume_at_all_usage", Empty, USAGE, Answered(NO_VOLUME);
    "fault_usage_checked", MARKED, USAGE, Faulty(LEAKED);
    // The check comes before the answer.
    "fault_usage_before_answer", MARKED, OF_SECOND, Faulty(LEAKED);
    "feature_usage_checked", SmallChanged(VOLUME, volume::INCOMPAT, &[0x11]), USAGE, Refused("apfs: unsupported: Restore block 51\n");
};
