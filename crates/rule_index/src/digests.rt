// Numbers that names determine, so that names which are there twice are found among numbers.
ghost use Rattle.std.specs.Prelude.{◌≡◌};
ghost use Rattle.rule_index.specs.Digests.{digest_of, entry_digest, attribute_digest};

use crate::ids::IdOf;
use view_facts::{AttributeFact, EntryFact};

/// What a digest is multiplied by before each byte: odd, with its ones spread out.
const FACTOR: u64 = 0x9e37_79b9_7f4a_7c15;

/// The digest of a name in a directory, or among the attributes of a file.
#[tactic(auto, unfolding(crate::specs::Digests::digest_of))]
pub fn digest(id: u64, name: &str) -> u64
    ensures { result ≡ digest_of id name.now }
{
    let mut digest = id;
    for byte in name.as_bytes() {
        digest = digest.wrapping_mul(FACTOR).wrapping_add(u64::from(*byte));
    }
    digest
}

/// Entries by the digests of their names.
pub struct ByEntryDigest;

impl IdOf<EntryFact> for ByEntryDigest {
    ghost id = { entry_digest };

    fn id(e: &EntryFact) -> Option<u64> {
        Some(digest(e.id(), e.name()))
    }
}

/// Attributes by the digests of their names.
pub struct ByAttributeDigest;

impl IdOf<AttributeFact> for ByAttributeDigest {
    ghost id = { attribute_digest };

    fn id(a: &AttributeFact) -> Option<u64> {
        Some(digest(a.id(), a.name()))
    }
}
