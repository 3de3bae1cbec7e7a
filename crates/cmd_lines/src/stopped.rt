// Why a run stops before its text is whole.
ghost use Rattle.std.specs.Prelude.{◌≡◌};
ghost use Rattle.cmd_lines.specs.Stops.{stopped_at};
ghost use Rattle.cmd_lines.specs.declared.stopped.Stopped.TheVariants as stops;

use crate::named::Named;
use apfs_check::Raise;
use obj_base::{Feature, Stop};
use path_search::Answer;
use std::alloc::AllocError;

/// Why a run stops before its text is whole.
#[derive(Drop)]
pub enum Stopped {
    /// A fault. Status 1.
    Faulty(Named),
    /// The words are no line of the program. Status 2.
    WrongWords,
    /// A read of the image failed. Status 3.
    ReadFailed,
    /// A put of the text failed, or one into the folder. Status 4.
    WriteFailed,
    /// Memory ran out. Status 5.
    OutOfMemory,
    /// A feature that is refused, and its block. Status 6.
    Refused { feature: Feature, block: u64 },
    /// What is asked for isn't there. Status 7.
    Answered(Answer),
    /// No image was handed in. Status 8.
    NoImage,
    /// No folder was handed in. Status 9.
    NoFolder,
}

impl From<AllocError> for Stopped {
    ghost from_gives = { λ _ e. e ≡ stops.OutOfMemory };

    fn from(_: AllocError) -> Self {
        Stopped::OutOfMemory
    }
}

/// Why the run stops, where a layer does at this place.
pub fn stopped_by<P: Copy, F: Raise<P> + Drop>(stop: Stop<F>, place: P) -> Stopped
    ensures { result ≡ stopped_at (F.raises place) stop }
{
    match stop {
        Stop::Found(fault) => Stopped::Faulty(Named::InContainer(fault.raise(place))),
        Stop::Unsupported { feature, block } => Stopped::Refused { feature, block },
        Stop::ReadFault => Stopped::ReadFailed,
        Stop::NoMemory => Stopped::OutOfMemory,
    }
}
