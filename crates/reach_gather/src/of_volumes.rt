// The law of the parts of a container that `heads` and `load` have tested, which rests on the definitions alone.
ghost use Rattle.reach_gather.specs.Volumes.Laws.{PartsOfVolumes};

/// What `heads` and `load` say on Ok, said of namings: the container's map, the volumes of its slots, their maps and the
/// superblocks of their snapshots are named right, and what a volume names is what was loaded of it. It does nothing.
pub fn parts_of_volumes()
    ensures { PartsOfVolumes }
{}
