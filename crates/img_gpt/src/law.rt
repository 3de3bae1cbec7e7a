// The law of the four faults, which rests on the definitions alone.
ghost use Rattle.img_gpt.specs.Laws.{FoundExactly, PartOrFault};

/// Each of the four faults is named exactly where it is there and none before it, and a disk has a partition that holds a
/// container or one of them. It does nothing.
pub fn part_or_fault()
    ensures exactly { FoundExactly }
    ensures either { PartOrFault }
{}
