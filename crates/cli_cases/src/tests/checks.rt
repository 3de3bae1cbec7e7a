// The cases of `check`, and of commands that check first. The numbers of objects and of used blocks were counted by another program.
use crate::tests::cases::Ends::*;
use crate::tests::cases::{Case, HELLO_LINE, LS, NO_SNAPSHOT};
use crate::tests::images::Image;
use crate::tests::images::Image::*;
use img_make::{Base, Change, Sample, table};

pub const CHECK: &[&str] = &["check", "x"];

const STRICT: &[&str] = &["check", "x", "--strict"];

pub const LS_CHECKED: &[&str] = &["ls", "x", "/"];

const LS_STRICT: &[&str] = &["ls", "x", "/", "--strict"];

const LS_STRICT_QUICK: &[&str] = &["ls", "x", "/", "--strict", "--quick"];

// The container with a file of five bytes, and block 200 is marked.
const HELLO: Base = (Sample::H, &[], &[]);

pub const MARKED: Image = Made(HELLO, &[Change::Mark(200)]);

// The range of the file goes on in block 58, and the range of two files counts one.
const LONGER: Image = Made((Sample::H, &[(57, 2)], &[]), &[]);

const ONE_COUNTED: Image = Made((Sample::C, &[(57, 1)], &[]), &[]);

pub const NINE_VIEWS: Image = Made((Sample::V2, &[], &[]), &[]);

pub const LEAKED: &str = "apfs: fault: Leaked block 200\n";

const NAME_HASH: &str = "apfs: fault: NameHash volume 0 view 1 id 2 name é\n";

pub const SMALL_REPORT: &str =
    "clean\nxid 1\nvolumes 1\nviews 1\nobjects 14\nrecords 4\nused 57\nfree 199\nnotes 0\n";

pub const VIEWS_REPORT: &str =
    "clean\nxid 5\nvolumes 1\nviews 3\nobjects 22\nrecords 18\nused 65\nfree 191\nnotes 0\n";

pub const CHECK_CASES: &[Case] = table! {
    "clean_check", Small, CHECK, Wrote(SMALL_REPORT);
    "clean_check_strict", Small, STRICT, Wrote(SMALL_REPORT);
    "note_check_skipped", SmallSkipped, CHECK,
        Wrote("clean\nxid 1\nvolumes 1\nviews 1\nobjects 14\nrecords 4\nused 57\nfree 199\nnotes 1\nnote skipped index 3 xid 2\n");
    "clean_check_views", Views, CHECK, Wrote(VIEWS_REPORT);
    "clean_check_nine_views", NINE_VIEWS, CHECK, Wrote("clean\nxid 9\nvolumes 1\nviews 9\nobjects 34\nrecords 54\nused 77\nfree 179\nnotes 0\n");
    "note_check_unreached", LONGER, CHECK,
        Wrote("clean\nxid 1\nvolumes 1\nviews 1\nobjects 14\nrecords 8\nused 59\nfree 197\nnotes 1\nnote unreached volume 0 block 58 length 1\n");
    "fault_check_unreached", LONGER, STRICT, Faulty("apfs: fault: DataUnreached volume 0 block 58 length 1\n");
    "note_check_count", ONE_COUNTED, CHECK,
        Wrote("clean\nxid 1\nvolumes 1\nviews 1\nobjects 14\nrecords 12\nused 58\nfree 198\nnotes 1\nnote count volume 0 block 57 stored 1 streams 2\n");
    "fault_check_count", ONE_COUNTED, STRICT, Faulty("apfs: fault: DataCount volume 0 block 57 stored 1 streams 2\n");
    "note_check_hash", Unhashed, CHECK,
        Wrote("clean\nxid 1\nvolumes 1\nviews 1\nobjects 14\nrecords 8\nused 58\nfree 198\nnotes 1\nnote hash volume 0 view 1 id 2 name é\n");
    "fault_check_hash", Unhashed, STRICT, Faulty(NAME_HASH);
    "words_check_quick", Small, &["check", "x", "--quick"], Usage;
};

pub const FIRST_CASES: &[Case] = table! {
    "fault_check_leaked", MARKED, CHECK, Faulty(LEAKED);
    "fault_ls_checked", MARKED, LS_CHECKED, Faulty(LEAKED);
    "clean_ls_quick", MARKED, LS, Wrote(HELLO_LINE);
    "fault_tree_checked", MARKED, &["tree", "x", "/"], Faulty(LEAKED);
    "fault_cat_checked", MARKED, &["cat", "x", "/hello.txt"], Faulty(LEAKED);
    "fault_xattr_checked", MARKED, &["xattr", "x", "/hello.txt"], Faulty(LEAKED);
    "clean_ls_checked", Hello, LS_CHECKED, Wrote(HELLO_LINE);
    "clean_ls_strict", Hello, LS_STRICT, Wrote(HELLO_LINE);
    "clean_ls_checked_note", Unhashed, LS_CHECKED, Wrote("- 16 5 é\n");
    "fault_ls_strict", Unhashed, LS_STRICT, Faulty(NAME_HASH);
    "clean_ls_strict_quick", Unhashed, LS_STRICT_QUICK, Wrote("- 16 5 é\n");
    "answer_no_snapshot_checked", Views, &["ls", "x", "/", "--snapshot", "none"], Answered(NO_SNAPSHOT);
};
