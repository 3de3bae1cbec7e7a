// What a new container is made of.
ghost use Rattle.std.specs.Prelude.{◌≤◌, ◌↔◌, IsTrue};
ghost use Rattle.img_format.specs.Names.{IsName};

use apfs_model::Bytes;

// The least number of blocks and the greatest, with which one chunk holds all.
const LEAST_BLOCKS: u64 = 256;

const MOST_BLOCKS: u64 = 32_768;

// The longest name.
const MOST_OF_A_NAME: usize = 255;

/// What a new container is to be: how many blocks it has, and the name and the identifiers of it and of its volume.
#[derive(Drop)]
pub struct Spec {
    pub blocks: u64,
    /// The volume's name.
    pub name: Bytes,
    /// The container's identifier.
    pub container: [u8; 16],
    /// The volume's identifier.
    pub volume: [u8; 16],
}

impl Spec {
    ghost use Rattle.img_format.specs.Valid.{IsValid};

    /// Whether such a container can be made: it has 256 to 32,768 blocks, and its volume a name of 1 to 255 bytes of UTF-8 without
    /// a zero. Takes no memory.
    pub fn valid(&self) -> bool
        ensures { IsTrue result ↔ IsValid self.now }
    {
        has_blocks(self.blocks) && has_name(self.name.as_slice())
    }
}

// Whether a container can have so many blocks.
fn has_blocks(blocks: u64) -> bool
    ensures { IsTrue result ↔ ((256 ≤ blocks) × (blocks ≤ 32768)) }
{
    blocks >= LEAST_BLOCKS && blocks <= MOST_BLOCKS
}

// Whether a volume can have such a name.
fn has_name(name: &[u8]) -> bool
    ensures { IsTrue result ↔ IsName name.now }
{
    !name.is_empty()
        && name.len() <= MOST_OF_A_NAME
        && !name.contains(&0)
        && str::from_utf8(name).is_ok()
}
