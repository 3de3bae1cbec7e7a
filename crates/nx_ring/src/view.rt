// A checkpoint and what it maps.
ghost use Rattle.std.specs.Prelude.{◌≡◌, ◌-◌, ◌≤◌, [], Ok, length, option_map, IfSome};
ghost use Rattle.nx_block.specs.Read.{read_of};
ghost use Rattle.nx_ring.specs.Checkpoint.{eph, object_of, object_block_of, site_of};
ghost use Rattle.nx_ring.specs.Reading.{HasWholeBlocks};

use crate::RingLine;
use crate::objects::Object;
use nx_block::{NxView, nx_read};
use obj_base::{Header, Site};
use std::alloc::Global;
use std::marker::Model;

/// A valid checkpoint. It has the bytes of its superblock and of each object that it maps once. Contracts see its line,
/// the superblock's bytes, the objects by mapping with their oids, first blocks and bytes, and the candidates skipped.
#[derive(Drop)]
pub struct Checkpoint {
    pub(crate) entry: RingLine,
    // The header of the superblock, which was tested when the checkpoint was made.
    head: Header,
    pub(crate) superblock: Vec<u8>,
    pub(crate) objects: Vec<Object>,
    pub(crate) passed: Vec<(u32, u64)>,
}

impl Model for Checkpoint {
    ghost use Rattle.std.specs.Prelude.{◌≡◌, ◌≤◌, length, Ok};
    ghost use Rattle.obj_base.specs.Sound.{header_of};
    ghost use Rattle.nx_block.specs.Read.{read_of};
    ghost use Rattle.nx_ring.specs.Checkpoint.{Seen};

    ghost Value = { Seen };

    ghost view = { λ a. record { line = a.entry; nx = a.superblock.items; mapped = a.objects.items; skipped = a.passed.items } };

    ghost invariant = { λ a. (read_of a.superblock.items ≡ Ok a.superblock.items) × (4096 ≤ length a.superblock.items) × (a.head ≡ header_of a.superblock.items) × (1 ≤ a.entry.desc_len) };
}

impl Checkpoint {
    // The checkpoint of a line, by the bytes of its superblock and its objects, before any candidate is skipped.
    #[tactic(auto, using(crate::proofs::Fitting::read_long))]
    pub(crate) fn of(
        alloc: Global,
        entry: RingLine,
        superblock: Vec<u8>,
        objects: Vec<Object>,
    ) -> Checkpoint
        requires read { read_of superblock.items ≡ Ok superblock.items }
        requires some { 1 ≤ entry.desc_len }
        ensures { result ≡ record { line = entry; nx = superblock.items; mapped = objects.items; skipped = [] } }
    {
        let head = nx_read(&superblock).unwrap().header();
        Checkpoint {
            entry,
            head,
            superblock,
            objects,
            passed: Vec::new(alloc),
        }
    }

    /// The superblock. Its tests aren't made again.
    pub fn nx(&self) -> NxView<'_>
        ensures { result ≡ self.now.nx }
    {
        NxView::kept(self.head, &self.superblock)
    }

    /// The transaction.
    pub fn xid(&self) -> u64
        ensures { result ≡ self.now.line.xid }
    {
        self.entry.xid
    }

    /// The block of the superblock.
    pub fn block(&self) -> u64
        ensures { result ≡ self.now.line.block }
    {
        self.entry.block
    }

    /// The index of the superblock in the descriptor area.
    pub fn index(&self) -> u32
        ensures { result ≡ self.now.line.index }
    {
        self.entry.index
    }

    /// The number of checkpoint maps.
    pub fn maps(&self) -> u32
        ensures { result ≡ self.now.line.desc_len - 1 }
    {
        self.entry.desc_len - 1
    }

    /// The number of mappings.
    pub fn mapped(&self) -> usize
        ensures { result ≡ length self.now.mapped }
    {
        self.objects.len()
    }

    /// The index and the transaction of each candidate of a greater transaction, by index.
    pub fn skipped(&self) -> &[(u32, u64)]
        ensures { result.now ≡ self.now.skipped }
    {
        &self.passed
    }

    /// What the container's objects are measured by: its block size, its number of blocks, and the checkpoint's
    /// transaction as the greatest that is allowed.
    #[tactic(auto, unfolding(crate::specs::Checkpoint::site_of))]
    pub fn site(&self) -> Site
        ensures { result ≡ site_of self.now }
    {
        let nx = self.nx();
        Site {
            block_size: nx.block_size(),
            blocks: nx.block_count(),
            max_xid: self.xid(),
        }
    }

    // The object of an oid.
    #[tactic(auto, unfolding(crate::specs::Checkpoint::eph))]
    fn find(&self, oid: u64) -> Option<&Object>
        ensures { option_map (λ object. object.now) result ≡ eph self.now oid }
    {
        self.objects.iter().find(|object| object.oid() == oid)
    }

    /// The bytes of the object that an ephemeral oid names. It has whole blocks. None exactly
    /// where no mapping has the oid.
    pub fn object(&self, oid: u64) -> Option<&[u8]>
        ensures found { option_map (λ bytes. bytes.now) result ≡ object_of self.now oid }
        ensures in_whole_blocks { IfSome result (λ bytes. HasWholeBlocks bytes.now) }
    {
        match self.find(oid) {
            Some(object) => Some(object.bytes()),
            None => None,
        }
    }

    /// The first block of the object that an ephemeral oid names. None exactly where no mapping has the oid.
    pub fn object_block(&self, oid: u64) -> Option<u64>
        ensures { result ≡ object_block_of self.now oid }
    {
        match self.find(oid) {
            Some(object) => Some(object.block()),
            None => None,
        }
    }
}
