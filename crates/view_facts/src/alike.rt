// Facts that are compared with one another, and copied.
ghost use Rattle.std.specs.Prelude.{◌≡◌, IfOk, IsTrue};

use crate::contents::{are_same, copy_of};
use crate::text::{Text, copied};
use crate::{AttributeFact, EntryFact, ExtentFact, InodeFact, LinkFact, SiblingFact};
use blk_source::NoMemory;
use std::alloc::Global;

/// A fact of a view.
pub trait KeptFact: Drop {
    /// Whether it is the same as another.
    fn is_same(&self, other: &Self) -> bool
        ensures { IsTrue result → self.now ≡ other.now };

    /// Whether it stands before another in a tree, by the key of its record. Only how long a comparison of two views takes rests on it.
    fn is_before(&self, other: &Self) -> bool;

    /// A copy.
    ///
    /// # Errors
    ///
    /// `NoMemory`: an allocation failed.
    fn copied(&self, alloc: Global) -> Result<Self, NoMemory>
        ensures { IfOk result (λ copy. copy ≡ self.now) };
}

impl KeptFact for InodeFact {
    fn is_same(&self, other: &InodeFact) -> bool {
        self.id == other.id
            && self.bsd_flags == other.bsd_flags
            && self.mode == other.mode
            && self.parent == other.parent
            && self.private_id == other.private_id
            && self.links == other.links
            && self.has_stream == other.has_stream
            && self.stream == other.stream
    }

    fn is_before(&self, other: &InodeFact) -> bool {
        self.id < other.id
    }

    fn copied(&self, _alloc: Global) -> Result<InodeFact, NoMemory> {
        Ok(InodeFact {
            id: self.id,
            bsd_flags: self.bsd_flags,
            mode: self.mode,
            has_stream: self.has_stream,
            parent: self.parent,
            private_id: self.private_id,
            stream: self.stream,
            links: self.links,
        })
    }
}

impl KeptFact for EntryFact {
    fn is_same(&self, other: &EntryFact) -> bool {
        self.id == other.id
            && self.hash == other.hash
            && self.file_id == other.file_id
            && self.kind == other.kind
            && self.name.is_same(&other.name)
    }

    fn is_before(&self, other: &EntryFact) -> bool {
        (self.id, self.hash) < (other.id, other.hash)
    }

    fn copied(&self, alloc: Global) -> Result<EntryFact, NoMemory> {
        let name = Text::with(alloc, self.name.as_str(), self.name.sibling())?;
        Ok(EntryFact {
            id: self.id,
            file_id: self.file_id,
            name,
            hash: self.hash,
            kind: self.kind,
            ascii: self.ascii,
        })
    }
}

impl KeptFact for AttributeFact {
    fn is_same(&self, other: &AttributeFact) -> bool {
        self.id == other.id
            && self.name.as_str() == other.name.as_str()
            && are_same(&self.contents, &other.contents)
    }

    fn is_before(&self, other: &AttributeFact) -> bool {
        self.id < other.id || self.id == other.id && self.name.as_str() < other.name.as_str()
    }

    fn copied(&self, alloc: Global) -> Result<AttributeFact, NoMemory> {
        let name = copied(alloc, self.name.as_str())?;
        let contents = copy_of(alloc, &self.contents)?;
        Ok(AttributeFact {
            id: self.id,
            name,
            contents,
        })
    }
}

impl KeptFact for LinkFact {
    fn is_same(&self, other: &LinkFact) -> bool {
        self.id == other.id
            && self.file == other.file
            && self.sibling == other.sibling
            && self.parent == other.parent
            && self.name.as_str() == other.name.as_str()
    }

    fn is_before(&self, other: &LinkFact) -> bool {
        (self.id, self.sibling) < (other.id, other.sibling)
    }

    fn copied(&self, alloc: Global) -> Result<LinkFact, NoMemory> {
        let name = copied(alloc, self.name.as_str())?;
        Ok(LinkFact {
            id: self.id,
            file: self.file,
            sibling: self.sibling,
            parent: self.parent,
            name,
        })
    }
}

impl KeptFact for SiblingFact {
    fn is_same(&self, other: &SiblingFact) -> bool {
        self.id == other.id && self.file == other.file
    }

    fn is_before(&self, other: &SiblingFact) -> bool {
        self.id < other.id
    }

    fn copied(&self, _alloc: Global) -> Result<SiblingFact, NoMemory> {
        Ok(SiblingFact {
            id: self.id,
            file: self.file,
        })
    }
}

impl KeptFact for ExtentFact {
    fn is_same(&self, other: &ExtentFact) -> bool {
        self.id == other.id && self.extent == other.extent
    }

    fn is_before(&self, other: &ExtentFact) -> bool {
        (self.id, self.extent.logical) < (other.id, other.extent.logical)
    }

    fn copied(&self, _alloc: Global) -> Result<ExtentFact, NoMemory> {
        Ok(ExtentFact {
            id: self.id,
            extent: self.extent,
        })
    }
}
