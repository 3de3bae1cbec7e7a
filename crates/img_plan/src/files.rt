// The files of a volume while they are put together: inodes with their counts, and the records beside them.
ghost use Rattle.std.specs.Prelude.{◌≡◌, ◌≤◌, ◌<◌, IfOk, OnErr, OnOk, length};

use crate::records::{
    EntryPlan, InodePlan, Item, entry, file_extent, inode, rank, sibling_link, sibling_map,
    stream_id,
};
use fs_name::Names;
use std::alloc::{AllocError, Global};
use std::collections::BTreeMap;

// The ids of the directory above the root, of the root, and of the private directory.
pub(crate) const ABOVE_ROOT: u64 = 1;

pub(crate) const ROOT: u64 = 2;

pub(crate) const PRIVATE: u64 = 3;

// The most bytes of a name, for which the length in an entry's key has room.
const MOST_OF_A_NAME: usize = 1022;

// One more than the rest of a mode below its kind.
const KIND_UNIT: u16 = 0x1000;

/// The files of a volume: a root and a private directory, and what is added to them. Names of more than 1,022 bytes
/// aren't added.
#[derive(Drop)]
pub struct FileTree {
    names: Names,
    inodes: BTreeMap<u64, InodePlan>,
    items: Vec<Item>,
}

impl FileTree {
    ghost use Rattle.std.specs.Prelude.{IsSortedByKey};
    ghost use Rattle.img_plan.specs.Records.{rank_cmp, rank_of};
    ghost use Rattle.img_plan.specs.Files.{AddsEntry, AddsLink, AddsNamed, AddsRecord, AddsStream, HasNoFiles, HoldsAll, IsUnchanged, Places, Raises, names_of, records_of};

    /// The files of a volume with nothing but its two directories.
    pub fn new(alloc: Global, names: Names) -> Result<FileTree, AllocError>
        ensures { IfOk result (HasNoFiles names) }
    {
        let mut tree = FileTree {
            names,
            inodes: BTreeMap::new(alloc),
            items: Vec::new(alloc),
        };
        tree.add(alloc, InodePlan::directory(ROOT, ABOVE_ROOT), "root")?;
        let private = InodePlan::directory(PRIVATE, ABOVE_ROOT);
        tree.add(alloc, private, "private-dir")?;
        Ok(tree)
    }

    /// Adds an inode that nothing names yet, in the place of any other of its id.
    pub fn inode(&mut self, plan: InodePlan) -> Result<(), AllocError>
        ensures adds { OnOk result (Places plan self.old self.new) }
        ensures err { OnErr result (IsUnchanged self.old self.new) }
    {
        self.inodes.insert(plan.id, plan)?;
        Ok(())
    }

    /// Adds an inode, and its name in its parent. After an Err the inode may be there without its name.
    pub fn add(&mut self, alloc: Global, plan: InodePlan, name: &str) -> Result<(), AllocError>
        ensures adds { length name.now ≤ 1022 → OnOk result (AddsNamed plan name.now self.old self.new) }
        ensures too_long { 1022 < length name.now → OnOk result (Places plan self.old self.new) }
        ensures err { OnErr result (records_of self.new ≡ records_of self.old) }
    {
        let entry = EntryPlan {
            directory: plan.parent,
            file: plan.id,
            kind: plan.mode / KIND_UNIT,
            sibling: None,
        };
        self.inode(plan)?;
        self.name(alloc, &entry, name)
    }

    /// Adds an entry of a directory, which then has one child more.
    pub fn name(&mut self, alloc: Global, plan: &EntryPlan, name: &str) -> Result<(), AllocError>
        ensures adds { length name.now ≤ 1022 → OnOk result (AddsEntry plan.now name.now self.old self.new) }
        ensures too_long { 1022 < length name.now → IsUnchanged self.old self.new }
        ensures err { OnErr result (IsUnchanged self.old self.new) }
    {
        if name.len() <= MOST_OF_A_NAME {
            self.items.push(entry(alloc, self.names, plan, name)?)?;
            self.raise(plan.directory);
        }
        Ok(())
    }

    /// Adds one of several names of a regular file: an entry, a sibling link and a sibling map. The file has one link
    /// more. After an Err part of it may be there.
    pub fn link(
        &mut self,
        alloc: Global,
        file: u64,
        sibling: u64,
        directory: u64,
        name: &str,
    ) -> Result<(), AllocError>
        ensures adds { length name.now ≤ 1022 → OnOk result (AddsLink file sibling directory name.now self.old self.new) }
        ensures too_long { 1022 < length name.now → IsUnchanged self.old self.new }
    {
        if name.len() > MOST_OF_A_NAME {
            return Ok(());
        }
        let plan = EntryPlan {
            directory,
            file,
            kind: 8,
            sibling: Some(sibling),
        };
        self.name(alloc, &plan, name)?;
        self.raise(file);
        self.record(sibling_link(alloc, file, sibling, directory, name.as_bytes())?)?;
        self.record(sibling_map(alloc, sibling, file)?)
    }

    /// Adds a stream, and its extents as logical address and length in bytes and first block. After an Err part of them
    /// may be there.
    pub fn stream(
        &mut self,
        alloc: Global,
        stream: u64,
        extents: &[(u64, u64, u64)],
    ) -> Result<(), AllocError>
        ensures adds { OnOk result (AddsStream stream extents.now self.old self.new) }
    {
        self.record(stream_id(alloc, stream)?)?;
        'extents: for (address, length, block) in extents.iter() {
            self.record(file_extent(alloc, stream, *address, *length, *block)?)?;
        }
        Ok(())
    }

    /// Adds a record of any kind.
    pub fn record(&mut self, item: Item) -> Result<(), AllocError>
        ensures adds { OnOk result (AddsRecord item self.old self.new) }
        ensures err { OnErr result (IsUnchanged self.old self.new) }
    {
        self.items.push(item)?;
        Ok(())
    }

    // One child or link more of an inode.
    fn raise(&mut self, id: u64)
        ensures { Raises id self.old self.new }
    {
        if let Some(inode) = self.inodes.get_mut(&id) {
            inode.children_or_links = inode.children_or_links.saturating_add(1);
        }
    }

    /// The records in the tree's order.
    pub fn items(self, alloc: Global) -> Result<Vec<Item>, AllocError>
        ensures all { IfOk result (λ items. HoldsAll self items.items) }
        ensures ordered { IfOk result (λ items. IsSortedByKey (λ item. rank_of item.0.items) rank_cmp items.items) }
    {
        let FileTree {
            inodes,
            mut items,
            ..
        } = self;
        'inodes: for plan in inodes.values() {
            items.push(inode(alloc, plan)?)?;
        }
        items.sort_by_key(|item| rank(&item.0))?;
        Ok(items)
    }
}
