// The cases of `gen`. Their numbers were worked out by hand from what a generated image holds.
use crate::tests::cases::Case;
use crate::tests::cases::Ends::*;
use crate::tests::checks::MARKED;
use crate::tests::images::Image::Absent;
use img_make::table;

pub const GEN: &[&str] = &["gen", "1"];

pub const GEN_TEXT: &str =
    "generated 1\nclean\nxid 1\nvolumes 1\nviews 1\nobjects 14\nrecords 8\nused 57\nfree 971\nnotes 0\n";

pub const GEN_CASES: &[Case] = table! {
    "clean_gen_none", Absent, &["gen", "0"],
        Wrote("generated 0\nclean\nxid 1\nvolumes 1\nviews 1\nobjects 14\nrecords 4\nused 57\nfree 967\nnotes 0\n");
    "clean_gen_one", Absent, GEN, Wrote(GEN_TEXT);
    "clean_gen_beside_an_image", MARKED, GEN, Wrote(GEN_TEXT);
    "gen_leading_zeros", Absent, &["gen", "007"], Usage;
    "gen_too_many", Absent, &["gen", "20001"], Usage;
    "gen_six_digits", Absent, &["gen", "100000"], Usage;
    "gen_without_a_number", Absent, &["gen"], Usage;
    "gen_two_words", Absent, &["gen", "1", "1"], Usage;
    "gen_in_a_partition", Absent, &["--gpt", "gen", "1"], Usage;
};
