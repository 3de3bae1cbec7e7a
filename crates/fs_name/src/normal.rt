// The normal form of a name, and names that are the same.
ghost use Rattle.std.specs.Prelude.{◌≡◌, chars, string_bytes, IsOk, IfOk, IsAscii};
ghost use Rattle.unicode_normalization.specs.Forms.{nfd};
ghost use Rattle.caseless.specs.Caseless.{default_case_fold};
ghost use Rattle.fs_name.specs.Normal.{normal_form, is_same_name};

use crate::Names;
use apfs_model::NoMemory;
use caseless::{canonical_caseless_match_str, default_case_fold_str};
use std::alloc::{AllocError, Global};
use unicode_normalization::to_nfd;

/// Whether two names are the same: whether their normal forms are equal. ASCII names take no memory.
pub fn same_name(alloc: Global, names: Names, a: &str, b: &str) -> Result<bool, NoMemory>
    ensures value { IfOk result (λ same. same ≡ is_same_name names a.now b.now) }
    ensures plain { IsAscii a.now → IsAscii b.now → IsOk result }
{
    match same_in(alloc, names, a, b) {
        Ok(same) => Ok(same),
        Err(_) => Err(NoMemory),
    }
}

// The same, with the allocator's own error.
#[tactic(auto, using(crate::proofs::NormalLemmas::exact_same))]
fn same_in(alloc: Global, names: Names, a: &str, b: &str) -> Result<bool, AllocError>
    ensures value { IfOk result (λ same. same ≡ is_same_name names a.now b.now) }
    ensures plain { IsAscii a.now → IsAscii b.now → IsOk result }
{
    match names {
        Names::Exact => Ok(a == b),
        Names::Normal => same_decomposed(alloc, a, b),
        Names::Folded => canonical_caseless_match_str(alloc, a, b),
    }
}

/// The normal form of a name, as a text.
#[tactic(auto, unfolding(crate::specs::Normal::normal_chars))]
pub fn normal_text(alloc: Global, names: Names, name: &str) -> Result<String, AllocError>
    ensures { IfOk result (λ text. chars (string_bytes text) ≡ normal_form names name.now) }
{
    match names {
        Names::Exact => String::from_str(alloc, name),
        Names::Normal => decomposed(alloc, name),
        Names::Folded => {
            let plain = decomposed(alloc, name)?;
            let folded = case_folded(alloc, plain.as_str())?;
            decomposed(alloc, folded.as_str())
        }
    }
}

// Whether two texts have one canonical decomposition.
#[tactic(auto, using(crate::proofs::NormalLemmas::chars_eq, crate::proofs::NormalLemmas::ascii_same), unfolding(crate::specs::Normal::is_same_name, crate::specs::Normal::normal_chars))]
fn same_decomposed(alloc: Global, a: &str, b: &str) -> Result<bool, AllocError>
    ensures value { IfOk result (λ same. same ≡ is_same_name Names.Normal a.now b.now) }
    ensures plain { IsAscii a.now → IsAscii b.now → IsOk result }
{
    if a.is_ascii() && b.is_ascii() {
        return Ok(a == b);
    }
    let left = decomposed(alloc, a)?;
    let right = decomposed(alloc, b)?;
    Ok(left.as_str() == right.as_str())
}

// The canonical decomposition of a text.
#[tactic(auto, using(crate::proofs::NormalLemmas::chars_of_made))]
fn decomposed(alloc: Global, text: &str) -> Result<String, AllocError>
    ensures { IfOk result (λ made. chars (string_bytes made) ≡ nfd (chars text.now)) }
{
    to_nfd(alloc, text)
}

// The full case folding of a text.
#[tactic(auto, using(crate::proofs::NormalLemmas::chars_of_made))]
fn case_folded(alloc: Global, text: &str) -> Result<String, AllocError>
    ensures { IfOk result (λ made. chars (string_bytes made) ≡ default_case_fold (chars text.now)) }
{
    default_case_fold_str(alloc, text)
}
