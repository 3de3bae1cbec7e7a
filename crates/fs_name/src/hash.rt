// The hash of a name.
ghost use Rattle.std.specs.Prelude.{◌≡◌, chars, fold, IsOk, IfOk, IsAscii};
ghost use Rattle.fs_name.specs.Crc.{ones};
ghost use Rattle.fs_name.specs.Hash.{hash_chars, name_hash_of};
ghost use Rattle.fs_name.specs.Steps.{after_char, letter_of};

use crate::Names;
use crate::crc::{ONES, after_word};
use crate::normal::normal_text;
use apfs_model::NoMemory;
use std::alloc::Global;

// The low 22 bits of a remainder are a hash: the complement of a CRC is the remainder that it was made of.
const HASH_BITS: u32 = 0x003f_ffff;

/// The hash of an ASCII name, without its final zero, in the low 22 bits
/// (File-System Objects, `j_drec_hashed_key_t`).
#[tactic(auto, using(crate::proofs::HashLemmas::ascii_from_remainder))]
pub fn ascii_hash(names: Names, name: &[u8]) -> u32
    requires { IsAscii name.now }
    ensures { result ≡ name_hash_of names name.now }
{
    after_letters(names, name) & HASH_BITS
}

/// The hash of a name, without its final zero, in the low 22 bits
/// (File-System Objects, `j_drec_hashed_key_t`). An ASCII name takes no memory.
#[tactic(auto, unfolding(crate::specs::Hash::name_hash_of))]
pub fn name_hash(alloc: Global, names: Names, name: &str) -> Result<u32, NoMemory>
    ensures value { IfOk result (λ hash. hash ≡ name_hash_of names name.now) }
    ensures plain { IsAscii name.now → IsOk result }
{
    if name.is_ascii() {
        return Ok(ascii_hash(names, name.as_bytes()));
    }
    match normal_text(alloc, names, name) {
        Ok(text) => Ok(text_hash(text.as_str())),
        Err(_) => Err(NoMemory),
    }
}

// The hash of the characters of a text as they are.
#[tactic(auto, using(crate::proofs::HashLemmas::hash_from_remainder))]
fn text_hash(text: &str) -> u32
    ensures { result ≡ hash_chars (chars text.now) }
{
    after_text(text) & HASH_BITS
}

// The remainder after the characters of a text.
fn after_text(text: &str) -> u32
    ensures { result ≡ fold after_char ones (chars text.now) }
{
    text.chars()
        .fold(ONES, |rest, c| after_word(rest, u32::from(c)))
}

// The remainder after the normal form of an ASCII name.
fn after_letters(names: Names, name: &[u8]) -> u32
    ensures { result ≡ fold (λ rest b. after_char rest (letter_of names b)) ones name.now }
{
    match names {
        Names::Exact | Names::Normal => name
            .iter()
            .fold(ONES, |rest, b| after_word(rest, u32::from(*b))),
        Names::Folded => name.iter().fold(
            ONES,
            |rest, b| after_word(rest, u32::from(b.to_ascii_lowercase())),
        ),
    }
}
