// The cases of `format`, and what other commands say of what it writes. Their numbers were worked out by hand from what a new container holds.
use crate::tests::cases::Ends::Usage;
use crate::tests::cases::{Case, SMALL_LINE};
use crate::tests::images::Image::Absent;
use img_make::table;

const CONTAINER: &str = "00112233-4455-6677-8899-aabbccddeeff";

const VOLUME: &str = "ffeeddcc-bbaa-9988-7766-554433221100";

pub const FORMAT: &[&str] = &["format", "256", "Small", CONTAINER, VOLUME];

/// The same with the identifiers in other forms.
pub const FORMATS: [&[&str]; 3] = [
    FORMAT,
    &[
        "format",
        "256",
        "Small",
        "00112233445566778899AABBCCDDEEFF",
        "{ffeeddcc-bbaa-9988-7766-554433221100}",
    ],
    &[
        "format",
        "256",
        "Small",
        "URN:UUID:00112233-4455-6677-8899-aabbccddeeff",
        "urn:uuid:FFEEDDCC-BBAA-9988-7766-554433221100",
    ],
];

/// How many bytes it writes.
pub const FORMATTED: usize = 256 * 4096;

const REPORT: &str =
    "clean\nxid 1\nvolumes 1\nviews 1\nobjects 14\nrecords 4\nused 57\nfree 199\nnotes 0\n";

/// What other commands write of it.
pub const READ_CASES: [(&[&str], &str); 6] = [
    (&["check", "x"], REPORT),
    (&["check", "x", "--strict"], REPORT),
    (&["volumes", "x"], SMALL_LINE),
    (&["snapshots", "x"], ""),
    (&["ls", "x", "/"], ""),
    (&["tree", "x", "/"], ""),
];

// A name of 256 bytes.
const LONG_NAME: &str =
    "0123456789abcdef0123456789abcdef0123456789abcdef0123456789abcdef0123456789abcdef0123456789abcdef0123456789abcdef0123456789abcdef0123456789abcdef0123456789abcdef0123456789abcdef0123456789abcdef0123456789abcdef0123456789abcdef0123456789abcdef0123456789abcdef";

pub const FORMAT_CASES: &[Case] = table! {
    "format_too_few_blocks", Absent, &["format", "255", "Small", CONTAINER, VOLUME], Usage;
    "format_too_many_blocks", Absent, &["format", "32769", "Small", CONTAINER, VOLUME], Usage;
    "format_leading_zero", Absent, &["format", "0256", "Small", CONTAINER, VOLUME], Usage;
    "format_six_digits", Absent, &["format", "100256", "Small", CONTAINER, VOLUME], Usage;
    "format_empty_name", Absent, &["format", "256", "", CONTAINER, VOLUME], Usage;
    "format_long_name", Absent, &["format", "256", LONG_NAME, CONTAINER, VOLUME], Usage;
    "format_zero_in_the_name", Absent, &["format", "256", "a\0b", CONTAINER, VOLUME], Usage;
    "format_wrong_container", Absent, &["format", "256", "Small", "00112233-4455-6677-8899-aabbccddeefg", VOLUME], Usage;
    "format_wrong_volume", Absent, &["format", "256", "Small", CONTAINER, "1"], Usage;
    "format_three_words", Absent, &["format", "256", "Small", CONTAINER], Usage;
    "format_five_words", Absent, &["format", "256", "Small", CONTAINER, VOLUME, "x"], Usage;
    "format_upper_case", Absent, &["Format", "256", "Small", CONTAINER, VOLUME], Usage;
    "format_in_a_partition", Absent, &["--gpt", "format", "256", "Small", CONTAINER, VOLUME], Usage;
};
