// The cases of the commands on contents and attributes. Their lines were worked out by hand.
use crate::tests::cases::Ends::*;
use crate::tests::cases::{Case, HELLO_LINE, NO_SNAPSHOT, NO_VOLUME, NOT_DIRECTORY, NOT_FOUND};
use crate::tests::images::Image::*;
use crate::tests::images::*;
use apfs_layout::volume;
use img_make::table;

const NOT_FILE: &str = "apfs: answer: NotFile\n";

const COMPRESSED: &str = "apfs: answer: Compressed\n";

const DATALESS: &str = "apfs: answer: Dataless\n";

const NO_ATTRIBUTE: &str = "apfs: answer: NoAttribute\n";

pub const CAT: &[&str] = &["cat", "x", "/hello.txt", "--quick"];

pub const CAT_HOLE: &[&str] = &["cat", "x", "/hole", "--quick"];

pub const XATTR: &[&str] = &["xattr", "x", "/l", "--quick"];

pub const TARGET: &[&str] = &["xattr", "x", "/l", "com.apple.fs.symlink", "--quick"];

pub const CONTENT_CASES: &[Case] = table! {
    "words_cat_alone", Hello, &["cat", "x"], Usage;
    "words_cat_stray", Hello, &["cat", "x", "/hello.txt", "y"], Usage;
    "words_xattr_stray", Link, &["xattr", "x", "/l", "y", "z"], Usage;
    "answer_no_image_cat", Absent, CAT, NoImage;
    "answer_no_image_xattr", Absent, XATTR, NoImage;
    "clean_cat", Hello, CAT, Wrote("hello");
    "clean_cat_empty_snapshot", Views, &["cat", "x", "/old", "--snapshot", "s2", "--quick"], Wrote("");
    "clean_cat_last_block", Streamed(3, &[(0, 4096, 255)]), CAT_HOLE, Wrote("\0\0\0");
    "clean_cat_other_flags", Flagged(!0x4000_0020), CAT, Wrote("hello");
    "clean_ls_compressed", Flagged(0x20), &["ls", "x", "/", "--quick"], Wrote(HELLO_LINE);
    "answer_not_found_cat", Views, &["cat", "x", "/old", "--quick"], Answered(NOT_FOUND);
    "answer_not_directory_cat", Hello, &["cat", "x", "/hello.txt/x", "--quick"], Answered(NOT_DIRECTORY);
    "answer_not_file_root", Hello, &["cat", "x", "/", "--quick"], Answered(NOT_FILE);
    "answer_not_file_link", Link, &["cat", "x", "/l", "--quick"], Answered(NOT_FILE);
    "answer_compressed", Flagged(0x20), CAT, Answered(COMPRESSED);
    "answer_compressed_and_dataless", Flagged(0x4000_0020), CAT, Answered(COMPRESSED);
    "answer_dataless", Flagged(0x4000_0000), CAT, Answered(DATALESS);
    "answer_no_volume_cat", Hello, &["cat", "x", "/hello.txt", "--volume", "7", "--quick"], Answered(NO_VOLUME);
    "answer_no_snapshot_xattr", Link, &["xattr", "x", "/l", "--snapshot", "x", "--quick"], Answered(NO_SNAPSHOT);
    "feature_later_tree_cat", SmallChanged(VOLUME, volume::RESERVED, &[7]), &["cat", "x", "/", "--quick"],
        Refused("apfs: unsupported: LaterTree block 51\n");
    "fault_extent_order", Streamed(5000, &[(0, 8192, 0), (4096, 4096, 57)]), CAT_HOLE, Faulty("apfs: fault: ExtentOrder volume 0 view 1 id 16\n");
    "fault_extent_place", Streamed(3, &[(0, 8192, 255)]), CAT_HOLE, Faulty("apfs: fault: ExtentPlace volume 0 view 1 id 16\n");
};

pub const ATTRIBUTE_CASES: &[Case] = table! {
    "clean_xattr", Link, XATTR, Wrote("6 com.apple.fs.symlink\n");
    "clean_xattr_none", Hello, &["xattr", "x", "/hello.txt", "--quick"], Wrote("");
    "clean_xattr_name", Link, TARGET, Wrote("hello\0");
    "clean_xattr_name_before_options", Link, &["xattr", "x", "--volume", "0", "/l", "com.apple.fs.symlink", "--quick"], Wrote("hello\0");
    "clean_ls_link", Link, &["ls", "x", "/l", "--quick"], Wrote("l 16 0 l\n");
    "answer_no_attribute", Link, &["xattr", "x", "/l", "x", "--quick"], Answered(NO_ATTRIBUTE);
    "answer_no_attribute_prefix", Link, &["xattr", "x", "/l", "com.apple.fs.symlin", "--quick"], Answered(NO_ATTRIBUTE);
    "answer_not_found_xattr", Link, &["xattr", "x", "/m", "--quick"], Answered(NOT_FOUND);
    "answer_not_found_xattr_name", Link, &["xattr", "x", "/m", "com.apple.fs.symlink", "--quick"], Answered(NOT_FOUND);
    "fault_record_flags", LinkUnsaid, XATTR, Faulty("apfs: fault: Record volume 0 view 1 item 6 Flags\n");
    "clean_ls_attribute_unneeded", LinkUnsaid, &["ls", "x", "/", "--quick"], Wrote("l 16 0 l\n");
};
