// The areas that a superblock names.
ghost use Rattle.std.specs.Prelude.{◌≡◌};
ghost use Rattle.nx_ring.specs.Zero.{areas_of};
ghost use Rattle.nx_ring.specs.Candidates.{has_areas_of};

use nx_block::NxView;

/// The block size of a container, and its checkpoint areas, in blocks.
#[derive(Clone, Copy, PartialEq, Eq)]
pub struct Areas {
    pub size: u32,
    pub desc_base: u64,
    pub desc_blocks: u32,
    pub data_base: u64,
    pub data_blocks: u32,
}

impl Areas {
    // The areas that a superblock names.
    #[tactic(auto, unfolding(crate::specs::Zero::areas_of))]
    pub(crate) fn of(nx: &NxView<'_>) -> Areas
        ensures { result ≡ areas_of nx.now }
    {
        Areas {
            size: nx.block_size(),
            desc_base: nx.desc_base(),
            desc_blocks: nx.desc_blocks(),
            data_base: nx.data_base(),
            data_blocks: nx.data_blocks(),
        }
    }

    // Whether a superblock names the same ones.
    #[tactic(auto, unfolding(crate::specs::Candidates::has_areas_of))]
    pub(crate) fn are_those_of(&self, nx: &NxView<'_>) -> bool
        ensures { result ≡ has_areas_of self.now nx.now }
    {
        nx.block_size() == self.size
            && nx.desc_base() == self.desc_base
            && nx.desc_blocks() == self.desc_blocks
            && nx.data_base() == self.data_base
            && nx.data_blocks() == self.data_blocks
    }
}
