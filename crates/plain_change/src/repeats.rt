// Names that have come and are there twice.
ghost use Rattle.std.specs.Prelude.{◌≡◌, ◌≤◌, true, false, count_by, All, IsTrue};
ghost use Rattle.fs_name.specs.Text.{is_ascii_name};
ghost use Rattle.fs_name.specs.Normal.{are_hashed};
ghost use Rattle.apfs_model.specs.Lists.{In};
ghost use Rattle.view_rules.specs.Names as spec;
ghost use Rattle.plain_change.specs.Parts.{IsAlone, IsAttributeRight};

use crate::lookups::After;
use rule_breaks::inodes::lacks_owner;
use view_facts::{AttributeFact, EntryFact, Facts};

// How many entries have the directory and the name of one.
fn count_alike(entries: &[EntryFact], e: &EntryFact) -> usize
    ensures { result ≡ count_by (spec.is_entry_at e.now.id e.now.what.name) entries.now }
{
    entries
        .iter()
        .filter(|x| x.id() == e.id() && x.name() == e.name())
        .count()
}

// Whether the hash of an entry tells its name from others: it is hashed and ASCII.
#[tactic(auto, using(rule_breaks::proofs::Texts::ascii_name))]
fn is_told_by_hash(facts: &Facts, e: &EntryFact) -> bool
    ensures hashed { IsTrue result → are_hashed facts.now.names ≡ true }
    ensures ascii { IsTrue result → is_ascii_name e.now.what.name ≡ true }
{
    facts.names.are_hashed() && e.is_ascii()
}

// The entries among which those with the name of one stand: those of its hash, where that tells names apart, and otherwise those of its directory.
fn rivals<'a>(after: &After<'a>, e: &EntryFact) -> &'a [EntryFact]
    ensures { spec.HasAsciiHashes after.now.index.now.facts.now → In e.now after.now.index.now.facts.now.entries → count_by (spec.is_entry_at e.now.id e.now.what.name) result.now ≡ count_by (spec.is_entry_at e.now.id e.now.what.name) after.now.index.now.facts.now.entries }
{
    let index = after.index;
    if is_told_by_hash(index.facts, e) {
        after.entries_like(e)
    } else {
        after.entries_of(e.id())
    }
}

// Whether entries are at most so many, and one of them at most has the directory and the name of one.
fn is_once(most: usize, entries: &[EntryFact], e: &EntryFact) -> bool
    ensures { IsTrue result → count_by (spec.is_entry_at e.now.id e.now.what.name) entries.now ≤ 1 }
{
    entries.len() <= most && count_alike(entries, e) <= 1
}

// Whether it shows that an entry's name isn't there again in its directory.
fn is_entry_alone(after: &After<'_>, e: &EntryFact) -> bool
    ensures { IsTrue result → IsAlone after.now.index.now.facts.now e.now }
{
    is_once(after.most(), rivals(after, e), e)
}

/// Whether it shows that no name of an entry that has come is there again in its directory.
pub(crate) fn are_entries_alone(after: &After<'_>, come: &Facts) -> bool
    ensures { IsTrue result → All (IsAlone after.now.index.now.facts.now) come.now.entries }
{
    come.entries.iter().all(|e| is_entry_alone(after, e))
}

// How many attributes have the file and the name of one.
fn count_attributes_alike(attributes: &[AttributeFact], a: &AttributeFact) -> usize
    ensures { result ≡ count_by (spec.is_attribute_at a.now.id a.now.what.name) attributes.now }
{
    attributes
        .iter()
        .filter(|x| x.id() == a.id() && x.name() == a.name())
        .count()
}

// Whether attributes are at most so many, and one of them at most has the file and the name of one.
fn is_attribute_once(most: usize, attributes: &[AttributeFact], a: &AttributeFact) -> bool
    ensures { IsTrue result → count_by (spec.is_attribute_at a.now.id a.now.what.name) attributes.now ≤ 1 }
{
    attributes.len() <= most && count_attributes_alike(attributes, a) <= 1
}

// Whether it shows that an attribute's name isn't there again among those of its file.
fn is_attribute_alone(after: &After<'_>, a: &AttributeFact) -> bool
    ensures { IsTrue result → spec.is_attribute_repeated after.now.index.now.facts.now a.now ≡ false }
{
    is_attribute_once(after.most(), after.attributes_of(a.id()), a)
}

// Whether it shows that an attribute's name isn't there again among those of its file, which has an inode.
fn is_attribute_right(after: &After<'_>, a: &AttributeFact) -> bool
    ensures { IsTrue result → IsAttributeRight after.now.index.now.facts.now a.now }
{
    !lacks_owner(after.index, a) && is_attribute_alone(after, a)
}

/// Whether it shows that no name of an attribute that has come is there again among those of its file, and that each has the inode of its file.
pub(crate) fn are_attributes_right(after: &After<'_>, come: &Facts) -> bool
    ensures { IsTrue result → All (IsAttributeRight after.now.index.now.facts.now) come.now.attributes }
{
    come.attributes.iter().all(|a| is_attribute_right(after, a))
}
