// Where a partition lies, and why none is found.
ghost use Rattle.std.specs.Prelude.{◌≡◌};

use blk_source::ReadFailed;

/// A part of a disk, in bytes.
#[derive(Clone, Copy, PartialEq, Eq)]
pub struct Part {
    /// The byte at which it begins.
    pub start: u64,
    /// How many bytes it has.
    pub length: u64,
}

/// Why no partition is found: the first of the four faults that is there, or a read failed.
#[derive(Clone, Copy, PartialEq, Eq)]
pub enum GptStop {
    /// No header stands at either place.
    NoTable,
    /// The table doesn't lie in the disk, or its numbers are no table's.
    BadTable,
    /// No entry has the type.
    NoPartition,
    /// The partition of the first entry of the type, which is entry `at`, doesn't lie in the disk.
    PartOutside { at: u32 },
    /// A read failed.
    ReadFault,
}

impl From<ReadFailed> for GptStop {
    ghost use Rattle.img_gpt.specs.declared.part.GptStop.TheVariants.{ReadFault};

    ghost from_gives = { λ _ e. e ≡ ReadFault };

    fn from(_: ReadFailed) -> Self {
        GptStop::ReadFault
    }
}
