// The cases of `export`, each with what its folder has then, or with nothing handed in for the folder. They were worked out by hand.
use crate::tests::cases::Ends::*;
use crate::tests::cases::{Case, FOLDER, NO_SNAPSHOT, NO_VOLUME};
use crate::tests::checks::{LEAKED, MARKED};
use crate::tests::disks::DISK;
use crate::tests::images::Image::*;
use crate::tests::images::{Image, VOLUME};
use apfs_layout::volume;
use blk_folder::{Given, MemFolder};
use img_make::{Sample, table};
use std::alloc::Global;
use std::test::Fail;

// What a folder has: of each item its path, and of a file its bytes. Nothing where none was handed in.
pub fn told(alloc: Global, folder: &Given<MemFolder>) -> Result<String, Fail> {
    let mut text = String::new(alloc);
    let Given::Into(folder) = folder else {
        return Ok(text);
    };
    for i in 0..folder.len() {
        text.push_str("\n")?;
        text.push_str(folder.path(i))?;
        let Some(bytes) = folder.bytes(i) else {
            text.push_str("/")?;
            continue;
        };
        let Ok(bytes) = str::from_utf8(bytes) else {
            return Err(Fail::from("the bytes of a file aren't UTF-8"));
        };
        text.push_str("=")?;
        text.push_str(bytes)?;
    }
    Ok(text)
}

pub const EXPORT: &[&str] = &["export", "x", "y"];

const OF_SECOND: &[&str] = &["export", "x", "y", "--volume", "1"];

const FILE: u16 = 8;

// A directory with a file of five bytes, and an empty file beside it.
pub const FILLED: Image = WithBytes(&[(2, 16, 4, "d"), (2, 18, FILE, "e")], 16);

pub const FILLED_TEXT: &str = "exported 1 directories 2 files 5 bytes\n";

// What the folder has before each call: the directory, the file and its bytes, and the other file.
pub const EXPORTED: &[&str] = &[
    "",
    "\nd/",
    "\nd/\nd/hello=",
    "\nd/\nd/hello=hello",
    "\nd/\nd/hello=hello\ne=",
];

// Two volumes; the second has the file `hello.txt`.
const TWO: Image = Made((Sample::T, &[], &[]), &[]);

const NO_FILES: &str = "exported 0 directories 0 files 0 bytes\n";

const ONE_EMPTY: &str = "exported 0 directories 1 files 0 bytes\n";

const WITHHELD: &str = "skipped - hello.txt\nexported 0 directories 0 files 0 bytes\n";

// A case, and what its folder has then.
pub type Export = (Case, Option<&'static str>);

pub const EXPORT_CASES: &[Export] = table! {
    ("clean_export", Hello, EXPORT, Wrote("exported 0 directories 1 files 5 bytes\n")), Some("\nhello.txt=hello");
    ("clean_export_folder", FOLDER, EXPORT, Wrote("exported 1 directories 1 files 0 bytes\n")), Some("\nd/\nd/f=");
    ("clean_export_filled", FILLED, EXPORT, Wrote(FILLED_TEXT)), Some("\nd/\nd/hello=hello\ne=");
    ("clean_export_link", Link, EXPORT, Wrote("skipped l l\nexported 0 directories 0 files 0 bytes\n")), Some("");
    ("clean_export_kinds", Files(&[(2, 16, 1, "p"), (2, 17, 2, "c"), (2, 18, 6, "b\n"), (2, 19, 12, "..")]), EXPORT,
        Wrote("skipped s \\x2e\\x2e\nskipped b b\\x0a\nskipped c c\nskipped p p\nexported 0 directories 0 files 0 bytes\n")), Some("");
    ("clean_export_compressed", Flagged(0x20), EXPORT, Wrote(WITHHELD)), Some("");
    ("clean_export_dataless", Flagged(0x4000_0000), EXPORT, Wrote(WITHHELD)), Some("");
    ("clean_export_dots", Files(&[(2, 16, FILE, "..")]), EXPORT, Wrote(ONE_EMPTY)), Some("\n\\x2e\\x2e=");
    ("clean_export_newline", Files(&[(2, 16, FILE, "a\nb")]), EXPORT, Wrote(ONE_EMPTY)), Some("\na\\x0ab=");
    ("clean_export_alike", Exact(&[(2, 16, FILE, "a"), (2, 17, FILE, "A"), (2, 18, FILE, "é"), (2, 19, FILE, "e\u{301}")]), EXPORT,
        Wrote("exported 0 directories 4 files 0 bytes\n")), Some("\nA=\na=\ne\u{301}=\né=");
    ("clean_export_none", Small, EXPORT, Wrote(NO_FILES)), Some("");
    ("clean_export_views", Views, EXPORT, Wrote(ONE_EMPTY)), Some("\nnew=");
    ("clean_export_snapshot", Views, &["export", "x", "y", "--snapshot", "s2"], Wrote(ONE_EMPTY)), Some("\nold=");
    ("clean_export_volume", TWO, OF_SECOND, Wrote("exported 0 directories 1 files 5 bytes\n")), Some("\nhello.txt=hello");
    ("clean_export_folder_like_an_option", Views, &["export", "x", "--snapshot", "--volume=0", "--snapshot=s4"], Wrote(ONE_EMPTY)), Some("\nnew=");
    ("clean_gpt_export", Disk(DISK), &["--gpt", "export", "x", "y"], Wrote(NO_FILES)), Some("");
};

// Those that export nothing.
pub const REFUSED_CASES: &[Export] = table! {
    ("words_export_without_folder", Hello, &["export", "x"], Usage), None;
    ("words_export_stray", Hello, &["export", "x", "y", "z"], Usage), Some("");
    ("words_export_quick", Hello, &["export", "x", "y", "--quick"], Usage), Some("");
    ("words_export_strict", Hello, &["export", "x", "y", "--strict"], Usage), Some("");
    ("words_gpt_export_without_folder", Disk(DISK), &["--gpt", "export", "x"], Usage), None;
    ("answer_no_image_export", Absent, EXPORT, NoImage), None;
    ("answer_no_folder", Hello, EXPORT, NoFolder), None;
    ("answer_no_folder_before_fault", MARKED, EXPORT, NoFolder), None;
    ("answer_no_folder_gpt", Ring, &["--gpt", "export", "x", "y"], NoFolder), None;
    ("answer_no_volume_export", Hello, OF_SECOND, Answered(NO_VOLUME)), Some("");
    ("answer_no_volume_at_all_export", Empty, EXPORT, Answered(NO_VOLUME)), Some("");
    ("answer_no_snapshot_export", Hello, &["export", "x", "y", "--snapshot", "s2"], Answered(NO_SNAPSHOT)), Some("");
    ("fault_export_checked", MARKED, EXPORT, Faulty(LEAKED)), Some("");
    ("fault_export_before_answer", MARKED, OF_SECOND, Faulty(LEAKED)), Some("");
    ("feature_export_checked", SmallChanged(VOLUME, volume::INCOMPAT, &[0x11]), EXPORT, Refused("apfs: unsupported: Restore block 51\n")), Some("");
};
