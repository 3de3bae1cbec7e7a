// Why a run stops where a call on a path does.
ghost use Rattle.std.specs.Prelude.{◌≡◌};
ghost use Rattle.cmd_texts.specs.Seen.{answered_of, stopped_on, stopped_writing};

use apfs_check::Raise;
use cmd_lines::{Named, Stopped};
use obj_base::Stop;
use path_read::WriteStop;
use path_walk::{Answer, PathStop};

// What is answered of a path. That a slot has no volume, or that no snapshot has a name, isn't: these come before.
fn of_path(answer: Answer) -> Answer
    ensures { result ≡ answered_of answer }
{
    match answer {
        Answer::NoVolume | Answer::NoSnapshot => Answer::NotFound,
        Answer::NotFound | Answer::NotDirectory | Answer::NotFile => answer,
        Answer::Compressed | Answer::Dataless | Answer::NoAttribute => answer,
    }
}

/// Why the run stops, where a call on a path does.
pub fn stopped_on_path(stop: Stop<PathStop>) -> Stopped
    ensures { result ≡ stopped_on stop }
{
    match stop {
        Stop::Found(PathStop::Answer(answer)) => Stopped::Answered(of_path(answer)),
        Stop::Found(PathStop::Fault(fault)) => Stopped::Faulty(Named::InContainer(fault.raise(()))),
        Stop::Unsupported { feature, block } => Stopped::Refused { feature, block },
        Stop::ReadFault => Stopped::ReadFailed,
        Stop::NoMemory => Stopped::OutOfMemory,
    }
}

/// Why the run stops, where a call on a path that writes does.
pub fn stopped_on_write(stop: WriteStop) -> Stopped
    ensures { result ≡ stopped_writing stop }
{
    match stop {
        WriteStop::Stopped(stop) => stopped_on_path(stop),
        WriteStop::WriteFault => Stopped::WriteFailed,
    }
}
