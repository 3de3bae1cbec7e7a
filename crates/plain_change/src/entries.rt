// The rules on entries that have come.
ghost use Rattle.std.specs.Prelude.{◌≡◌, None, find, All, IfOk, IsTrue};
ghost use Rattle.view_rules.specs.Names as names;
ghost use Rattle.plain_change.specs.Parts.{IsEntryRight};

use blk_source::NoMemory;
use rule_breaks::entries::{has_other_kind, lacks_inode, lacks_parent};
use rule_breaks::names::{has_other_ascii_hash, has_other_name_hash, is_unmarked};
use rule_index::Index;
use std::alloc::Global;
use view_facts::{EntryFact, Facts};

// Whether an entry has its directory, its file with its kind, its mark, and the hash of an ASCII name.
fn is_entry_right(index: &Index<'_>, e: &EntryFact) -> bool
    ensures { IsTrue result → IsEntryRight index.now.facts.now e.now }
{
    if has_other_ascii_hash(index.facts, e) {
        return false;
    }
    if lacks_parent(index, e) {
        return false;
    }
    if lacks_inode(index, e) {
        return false;
    }
    if has_other_kind(index, e) {
        return false;
    }
    !is_unmarked(index, e)
}

/// Whether entries that have come have their directories, their files with their kinds, their marks, and the hashes of ASCII names.
pub(crate) fn are_entries_right(index: &Index<'_>, come: &Facts) -> bool
    ensures { IsTrue result → All (IsEntryRight index.now.facts.now) come.now.entries }
{
    come.entries.iter().all(|e| is_entry_right(index, e))
}

/// Whether entries that have come have the hashes of names that aren't ASCII.
pub(crate) fn have_name_hashes(alloc: Global, facts: &Facts, come: &Facts) -> Result<bool, NoMemory>
    ensures { IfOk result (λ right. IsTrue right → find (names.has_other_name_hash facts.now) come.now.entries ≡ None) }
{
    for e in &come.entries {
        let other = has_other_name_hash(alloc, facts, e)?;
        if other {
            return Ok(false);
        }
    }
    Ok(true)
}
