// Why a call that writes stops.
use obj_base::Stop;
use path_walk::PathStop;

/// Why contents weren't written to their end.
#[derive(PartialEq, Drop)]
pub enum WriteStop {
    Stopped(Stop<PathStop>),
    WriteFault,
}
