// An image while it is made: its bytes, and which of its blocks are used.
ghost use Rattle.std.specs.Prelude.{◌≡◌, ◌≤◌, ◌<◌, ◌*◌, ◌+◌, length, IfOk, OnOk, OnErr, vec_len};

use crate::geometry::Geometry;
use img_edit::write;
use img_plan::Item;
use std::alloc::{AllocError, Global};

/// The most blocks of an image: those of a full chunk-info block of 4,096 bytes.
pub(crate) const MOST_BLOCKS: usize = 4_128_768;

/// An image while it is made.
#[derive(Drop)]
pub(crate) struct Image {
    pub geometry: Geometry,
    pub bytes: Vec<u8>,
    /// Which blocks are used.
    pub used: Vec<bool>,
    /// All blocks before this one are used.
    pub next: usize,
    ghost whole: { vec_len bytes ≡ geometry.size * vec_len used },
}

/// Adds an item that was made.
pub(crate) fn add(items: &mut Vec<Item>, made: Result<Item, AllocError>) -> Result<(), AllocError> {
    items.push(made?)?;
    Ok(())
}

impl Image {
    ghost use Rattle.img_make.specs.Images.{HasGrown};

    /// An image of zeros, of which no block is used.
    pub(crate) fn new(alloc: Global, geometry: Geometry, blocks: usize) -> Result<Image, AllocError>
        requires { blocks ≤ 4128768 }
        ensures size { IfOk result (λ image. image.geometry.size ≡ geometry.size) }
        ensures blocks { IfOk result (λ image. vec_len image.used ≡ blocks) }
    {
        let bytes = vec![in alloc; 0u8; geometry.size * blocks]?;
        let used = vec![in alloc; false; blocks]?;
        Ok(Image {
            geometry,
            bytes,
            used,
            next: 0,
        })
    }

    /// Writes a whole block that the image has, and marks it used.
    pub(crate) fn put(&mut self, at: usize, block: &[u8])
        ensures { HasGrown self.old self.new }
    {
        if at < self.used.len() {
            let _ = write(&mut self.bytes, self.geometry.size, at, 0, block);
            self.used[at] = true;
        }
    }

    /// Writes a whole block that was made, as `put` does.
    pub(crate) fn store(
        &mut self,
        at: usize,
        made: Result<Vec<u8>, AllocError>,
    ) -> Result<(), AllocError>
        ensures { HasGrown self.old self.new }
    {
        let block = made?;
        self.put(at, &block);
        Ok(())
    }

    /// Writes the bytes from a block on, where the image has room for them.
    pub(crate) fn put_contents(&mut self, block: u64, contents: &[u8])
        ensures { HasGrown self.old self.new }
    {
        if block < MOST_BLOCKS as u64 {
            let at = self.geometry.size * block as usize;
            if at <= self.bytes.len() && contents.len() <= self.bytes.len() - at {
                self.bytes[at..at + contents.len()].copy_from_slice(contents);
            }
        }
    }

    /// Marks blocks used, those that the image has.
    pub(crate) fn mark(&mut self, first: u64, length: u64)
        ensures { HasGrown self.old self.new }
    {
        let blocks = self.used.len() as u64;
        let start = first.min(blocks) as usize;
        let end = first.saturating_add(length).min(blocks) as usize;
        for at in start..end {
            self.used[at] = true;
        }
    }

    // One block more, which is free.
    fn grow(&mut self) -> Result<(), AllocError>
        ensures more { OnOk result (vec_len self.new.used ≡ vec_len self.old.used + 1) }
        ensures same { OnErr result (vec_len self.new.used ≡ vec_len self.old.used) }
        ensures size { self.new.geometry.size ≡ self.old.geometry.size }
    {
        let blocks = self.used.len();
        if blocks >= MOST_BLOCKS {
            return Err(AllocError);
        }
        let bytes = self.bytes.len();
        self.used.push(false)?;
        match self.bytes.resize(bytes + self.geometry.size, 0) {
            Ok(()) => Ok(()),
            Err(error) => {
                let _ = self.used.pop();
                Err(error)
            }
        }
    }

    // The first free block, or the first after the image.
    fn first_free(&self) -> usize
        ensures { result ≤ vec_len self.now.used }
    {
        for at in self.next..self.used.len() {
            if !self.used[at] {
                return at;
            }
        }
        self.used.len()
    }

    /// The first free block, which is used from now on; the image has one more where there was none.
    pub(crate) fn place(&mut self) -> Result<usize, AllocError>
        ensures { HasGrown self.old self.new }
    {
        let at = self.first_free();
        if at == self.used.len() {
            self.grow()?;
        }
        self.used[at] = true;
        self.next = at;
        Ok(at)
    }
}
