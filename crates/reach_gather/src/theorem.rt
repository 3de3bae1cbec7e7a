// The laws of namings, which rest on the definitions alone.
ghost use Rattle.std.specs.Prelude.{ℕ, List};
ghost use Rattle.nx_ring.specs.Checkpoint.{Seen};
ghost use Rattle.reach_gather.specs.Laws.{NamingsOfSteps};
ghost use Rattle.reach_gather.specs.Parts.{NamingsOfParts};

/// What is live from the naming of a tree's root are that naming and those of the tree's steps. It does nothing.
pub fn namings_of_steps()
    ensures { NamingsOfSteps }
{}

/// What is live from the naming of an object map, of a jumpstart, of extended metadata and of what tells of chunks is a list. It
/// does nothing.
pub fn namings_of_parts()
    ensures { (image : List ℕ) (seen : Seen) → NamingsOfParts image seen }
{}
