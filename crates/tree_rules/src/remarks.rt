// The notes of a view: hashes of names that aren't ASCII, and inodes without entries.
ghost use Rattle.std.specs.Prelude.{◌≡◌, ◌++◌, ◌&&◌, not, nat_le, Some, None, option_to_list, find, IfOk, OnOk, if◌then◌else◌};
ghost use Rattle.std.specs.Option.{option_copied};
ghost use Rattle.view_rules.specs.Facts.{is_directory};
ghost use Rattle.view_rules.specs.Names as names;
ghost use Rattle.rule_breaks.specs.Faults as faults;
ghost use Rattle.tree_rules.specs.Notes as spec;
ghost use Rattle.tree_rules.specs.Tallies as tallies;

use crate::Profile;
use apfs_model::Bytes;
use blk_source::NoMemory;
use rule_breaks::names::has_other_name_hash;
use rule_index::Index;
use std::alloc::Global;
use view_facts::{EntryFact, Facts, InodeFact};
use view_rules::{IdAt, NamedAt, Note};
use vol_view::View;

/// The first entry whose name isn't ASCII and whose key has another hash.
pub(crate) fn other_name_hash(alloc: Global, facts: &Facts) -> Result<Option<&EntryFact>, NoMemory>
    ensures { IfOk result (λ first. option_copied first ≡ find (names.has_other_name_hash facts.now) facts.now.entries) }
{
    for e in &facts.entries {
        let other = has_other_name_hash(alloc, facts, e)?;
        if other {
            return Ok(Some(e));
        }
    }
    Ok(None)
}

/// The place of an entry and its name.
pub(crate) fn named_at(alloc: Global, view: &View, e: &EntryFact) -> Result<NamedAt, NoMemory>
    ensures { IfOk result (λ at. at ≡ faults.named_at view.now e.now.id e.now.what.name) }
{
    let name = Bytes::from_slice(alloc, e.name().as_bytes())?;
    Ok(NamedAt {
        slot: view.slot,
        xid: view.xid,
        id: e.id(),
        name,
    })
}

// The note of an entry, where its name isn't ASCII and its key has another hash.
fn hash_note(
    alloc: Global,
    view: &View,
    facts: &Facts,
    e: &EntryFact,
) -> Result<Option<Note>, NoMemory>
    ensures { IfOk result (λ note. note ≡ (if names.has_other_name_hash facts.now e.now then Some (spec.hash_note view.now e.now) else None)) }
{
    if !has_other_name_hash(alloc, facts, e)? {
        return Ok(None);
    }
    let at = named_at(alloc, view, e)?;
    Ok(Some(Note::Hash(at)))
}

// Puts a note after the others, where there is one.
fn put(notes: &mut Vec<Note>, note: Option<Note>) -> Result<(), NoMemory>
    ensures { OnOk result (notes.new.items ≡ notes.old.items ++ option_to_list note) }
{
    let Some(note) = note else {
        return Ok(());
    };
    notes.push(note)?;
    Ok(())
}

// The notes on hashes, in record order.
fn hash_notes(alloc: Global, view: &View, facts: &Facts) -> Result<Vec<Note>, NoMemory>
    ensures { IfOk result (λ notes. notes.items ≡ spec.hash_notes view.now facts.now) }
{
    let mut notes = Vec::new(alloc);
    for e in &facts.entries {
        let note = hash_note(alloc, view, facts, e)?;
        put(&mut notes, note)?;
    }
    Ok(notes)
}

// Whether an inode is of 16 or more, and no directory.
fn is_user_file(f: &InodeFact) -> bool
    ensures { result ≡ (nat_le 16 f.now.id && not (is_directory f.now.what)) }
{
    f.id() >= 16 && f.kind() != 4
}

// Whether an inode of 16 or more, no directory, has no entry.
#[tactic(auto, unfolding(crate::specs::Notes::is_unnamed))]
fn is_unnamed(index: &Index<'_>, f: &InodeFact) -> bool
    ensures { result ≡ spec.is_unnamed index.now.facts.now f.now }
{
    is_user_file(f) && !index.is_named(f.id())
}

// The note of an inode, where it has no entry.
fn unnamed_note(view: &View, index: &Index<'_>, f: &InodeFact) -> Option<Note>
    ensures { result ≡ (if spec.is_unnamed index.now.facts.now f.now then Some (spec.unnamed_note view.now f.now) else None) }
{
    if !is_unnamed(index, f) {
        return None;
    }
    Some(Note::Unnamed(IdAt {
        slot: view.slot,
        xid: view.xid,
        id: f.id(),
    }))
}

// The notes on inodes without entries, in record order, after others.
fn unnamed_notes(view: &View, index: &Index<'_>, before: Vec<Note>) -> Result<Vec<Note>, NoMemory>
    ensures { IfOk result (λ notes. notes.items ≡ before.items ++ spec.unnamed_notes view.now index.now.facts.now) }
{
    let mut notes = before;
    let facts = index.facts;
    for f in &facts.inodes {
        put(&mut notes, unnamed_note(view, index, f))?;
    }
    Ok(notes)
}

/// The notes of a view: those on hashes, which are faults under Strict, and then those on inodes without entries.
#[tactic(auto, unfolding(crate::specs::Tallies::notes_of))]
pub(crate) fn notes(
    alloc: Global,
    profile: Profile,
    view: &View,
    index: &Index<'_>,
) -> Result<Vec<Note>, NoMemory>
    ensures { IfOk result (λ notes. notes.items ≡ tallies.notes_of profile view.now index.now.facts.now) }
{
    match profile {
        Profile::Plain => {
            let hashes = hash_notes(alloc, view, index.facts)?;
            unnamed_notes(view, index, hashes)
        }
        Profile::Strict => unnamed_notes(view, index, Vec::new(alloc)),
    }
}
