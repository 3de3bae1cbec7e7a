// Why a call stops, and the features that are refused.
ghost use Rattle.std.specs.Prelude.{◌≡◌, ⊤};
ghost use Rattle.obj_base.specs.Features.{feature_name};
ghost use Rattle.obj_base.specs.Stops.{Tells, in_block};
ghost use Rattle.obj_base.specs.Raising.{IsRaisedBy};
ghost use Rattle.obj_base.specs.declared.stop.Stop.TheVariants.{ReadFault, NoMemory};

use apfs_model::{NoMemory as OutOfMemory, ReadFailed};
use std::alloc::{AllocError, AllocFailed};

/// A feature of the format that is refused by name.
#[derive(Clone, Copy, PartialEq, Eq)]
pub enum Feature {
    /// A checkpoint area isn't contiguous.
    NonContiguous,
    /// The container lies on two devices.
    Fusion,
    /// The container isn't of version 2.
    Version,
    /// A container feature without a name in the reference.
    UnknownContainer,
    /// The container is being resized.
    Resizing,
    /// The reaper is at work.
    Reaper,
    /// The container's object map has snapshots.
    ContainerSnapshots,
    /// A revert to a snapshot is pending.
    Revert,
    /// Something is encrypted, or encryption is being changed.
    Encrypted,
    /// A volume is sealed, or a node is hashed.
    Sealed,
    /// A snapshot is dataless.
    Dataless,
    /// A volume's restore isn't complete.
    Restore,
    /// A snapshot is marked deleted, reverted or merging.
    SnapshotState,
    /// An object is stored without a header.
    NoHeader,
    /// A node or a mapped object isn't one block.
    Size,
    /// A tree's root is above level 15.
    Deep,
    /// A tree is stored otherwise than this program reads it.
    Storage,
    /// A number of the volume that the reference doesn't describe is set.
    LaterTree,
    /// A volume feature without a name in the reference.
    UnknownVolume,
}

impl Feature {
    /// The name by which a feature is printed.
    pub fn name(self) -> &'static str
        ensures { result.now ≡ feature_name self }
    {
        match self {
            Feature::NonContiguous => "NonContiguous",
            Feature::Fusion => "Fusion",
            Feature::Version => "Version",
            Feature::UnknownContainer => "UnknownContainer",
            Feature::Resizing => "Resizing",
            Feature::Reaper => "Reaper",
            Feature::ContainerSnapshots => "ContainerSnapshots",
            Feature::Revert => "Revert",
            Feature::Encrypted => "Encrypted",
            Feature::Sealed => "Sealed",
            Feature::Dataless => "Dataless",
            Feature::Restore => "Restore",
            Feature::SnapshotState => "SnapshotState",
            Feature::NoHeader => "NoHeader",
            Feature::Size => "Size",
            Feature::Deep => "Deep",
            Feature::Storage => "Storage",
            Feature::LaterTree => "LaterTree",
            Feature::UnknownVolume => "UnknownVolume",
        }
    }
}

/// Where an id is looked up: the oid of a physical object is its block, an ephemeral one stands in the checkpoint's
/// mappings, a virtual one in the container's object map or in that of the volume of a slot.
#[derive(Clone, Copy, PartialEq, Eq)]
pub enum Within {
    Physical,
    Ephemeral,
    Container,
    Volume(u32),
}

/// Why a call that neither reads nor allocates refuses.
#[derive(Clone, Copy, PartialEq, Eq)]
pub enum Bad<F> {
    Found(F),
    Unsupported(Feature),
}

/// Why any other call stops. `Found` and `Unsupported` come only where the image has what they name, `ReadFault` only
/// where the source failed in the call. Want of memory is free.
#[derive(Clone, Copy, PartialEq, Eq)]
pub enum Stop<F> {
    Found(F),
    /// `block` is that of the object in which the feature stands.
    Unsupported { feature: Feature, block: u64 },
    ReadFault,
    NoMemory,
}

/// An object in a block fails a test.
#[derive(Clone, Copy, PartialEq, Eq)]
pub struct Unsound<F> {
    /// The block in which the object stands.
    pub block: u64,
    /// The test that fails.
    pub why: F,
}

impl<F> Bad<F> {
    /// The refusal of a test of the object in a block, as a stop that names the block.
    pub fn in_block(self, block: u64) -> Stop<Unsound<F>>
        ensures { result ≡ in_block block self }
    {
        match self {
            Bad::Found(why) => Stop::Found(Unsound { block, why }),
            Bad::Unsupported(feature) => Stop::Unsupported { feature, block },
        }
    }
}

impl<F> Stop<F> {
    /// The same stop, its fault told in other words.
    pub fn map<G, M: FnOnce(F) -> G>(self, say: M) -> Stop<G>
        requires { Tells (M.pre say) (λ _ _. ⊤) self }
        ensures { IsRaisedBy (M.post say) self result }
    {
        match self {
            Stop::Found(fault) => Stop::Found(say(fault)),
            Stop::Unsupported { feature, block } => Stop::Unsupported { feature, block },
            Stop::ReadFault => Stop::ReadFault,
            Stop::NoMemory => Stop::NoMemory,
        }
    }
}

impl<F> From<ReadFailed> for Stop<F> {
    ghost from_gives = { λ _ e. e ≡ ReadFault };

    fn from(_: ReadFailed) -> Self {
        Stop::ReadFault
    }
}

impl<F> From<OutOfMemory> for Stop<F> {
    ghost from_gives = { λ _ e. e ≡ NoMemory };

    fn from(_: OutOfMemory) -> Self {
        Stop::NoMemory
    }
}

impl<F> From<AllocError> for Stop<F> {
    ghost from_gives = { λ _ e. e ≡ NoMemory };

    fn from(_: AllocError) -> Self {
        Stop::NoMemory
    }
}

impl<F, T: Drop> From<AllocFailed<T>> for Stop<F> {
    ghost from_gives = { λ _ e. e ≡ NoMemory };

    fn from(_: AllocFailed<T>) -> Self {
        Stop::NoMemory
    }
}
