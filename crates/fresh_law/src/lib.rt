//! What the blocks of a new container say, and why it is well-formed.
#![tactic(auto)]

ghost use Rattle.fresh_law.specs.Law.{FreshHolds, FreshReported};
ghost use Rattle.fresh_law.specs.Says.{FreshSays};

/// Each block of a new container says what it is to say: which numbers its fields have, which records it has, and that its sum is
/// right. It does nothing.
pub fn blocks_say()
    ensures { FreshSays }
{}

/// A new container is well-formed under both profiles. Its newest checkpoint is of transaction 1, and its one volume has the name and the
/// identifier that were given, no snapshots, and nothing in its root. Its report is known, but for the number of free blocks, before
/// it is checked. It does nothing.
pub fn new_container_holds()
    ensures holds { FreshHolds }
    ensures reported { FreshReported }
{}
