// What is looked up by an id in the facts after a change: few items in lists that are lent, without lists of their own.
ghost use Rattle.std.specs.Prelude.{◌≡◌, ◌==◌, filter, find, IfSome};
ghost use Rattle.std.specs.Option.{option_copied};
ghost use Rattle.rule_index.specs.Order.{hash_rank};
ghost use Rattle.rule_changes.specs.Changes.{is_of};
ghost use Rattle.plain_change.specs.Lookups.{is_file_link};

use rule_index::ordered::rank;
use rule_index::{Index, Near};
use view_facts::{AttributeFact, EntryFact, ExtentFact, Facts, InodeFact, LinkFact, SiblingFact};

// How many facts there are.
fn count(facts: &Facts) -> usize {
    facts
        .inodes
        .len()
        .saturating_add(facts.entries.len())
        .saturating_add(facts.attributes.len())
        .saturating_add(facts.links.len())
        .saturating_add(facts.siblings.len())
        .saturating_add(facts.extents.len())
}

// How much is looked through for one fact, so that a plain test takes no more than some tests of the whole view.
fn most(facts: &Facts, gone: &Facts, come: &Facts) -> usize {
    let tested = count(gone).saturating_add(count(come)).max(1);
    (count(facts).saturating_mul(4) / tested).clamp(16, 4096)
}

/// The facts after a change, with their index, by which they are looked up in their order.
#[derive(Drop)]
pub(crate) struct After<'a> {
    pub(crate) index: &'a Index<'a>,
    near: &'a Near<'a>,
    most: usize,
    ghost near_right: { near.now.facts.now ≡ index.now.facts.now },
}

impl<'a> After<'a> {
    /// Those of an index, where they are looked up in their order, by what is gone and what has come.
    pub(crate) fn of(index: &'a Index<'a>, gone: &Facts, come: &Facts) -> Option<After<'a>>
        ensures { IfSome result (λ after. after.index.now.facts.now ≡ index.now.facts.now) }
    {
        let near = index.as_near()?;
        Some(After {
            index,
            near,
            most: most(index.facts, gone, come),
        })
    }

    /// How much is looked through for one fact. Where there is more, no answer is given.
    pub(crate) fn most(&self) -> usize {
        self.most
    }

    /// The inode of an id.
    pub(crate) fn inode(&self, id: u64) -> Option<&'a InodeFact>
        ensures { option_copied result ≡ find (is_of id) self.now.index.now.facts.now.inodes }
    {
        self.near.inodes.first(id)
    }

    /// The entries of a directory.
    pub(crate) fn entries_of(&self, directory: u64) -> &'a [EntryFact]
        ensures { result.now ≡ filter (is_of directory) self.now.index.now.facts.now.entries }
    {
        self.near.directories.run(directory)
    }

    /// The entries that have the directory and the hash of one.
    pub(crate) fn entries_like(&self, e: &EntryFact) -> &'a [EntryFact]
        ensures { result.now ≡ filter (λ x. hash_rank x == hash_rank e.now) self.now.index.now.facts.now.entries }
    {
        self.near.hashes.run(rank(e))
    }

    /// The attributes of a file.
    pub(crate) fn attributes_of(&self, file: u64) -> &'a [AttributeFact]
        ensures { result.now ≡ filter (is_of file) self.now.index.now.facts.now.attributes }
    {
        self.near.attributes.run(file)
    }

    /// The links of a file.
    pub(crate) fn links_of(&self, file: u64) -> &'a [LinkFact]
        ensures { result.now ≡ filter (is_file_link file) self.now.index.now.facts.now.links }
    {
        self.near.links.run(file)
    }

    /// The maps of a sibling.
    pub(crate) fn maps_of(&self, sibling: u64) -> &'a [SiblingFact]
        ensures { result.now ≡ filter (is_of sibling) self.now.index.now.facts.now.siblings }
    {
        self.near.maps.run(sibling)
    }

    /// The extents of a stream.
    pub(crate) fn extents_of(&self, stream: u64) -> &'a [ExtentFact]
        ensures { result.now ≡ filter (is_of stream) self.now.index.now.facts.now.extents }
    {
        self.near.extents.run(stream)
    }
}
