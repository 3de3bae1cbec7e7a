// The look-up of ephemeral objects.
ghost use Rattle.std.specs.Prelude.{◌≡◌, ◌==◌, length, None, if◌then◌else◌};
ghost use Rattle.apfs_model.specs.Blocks.{in_container};
ghost use Rattle.space_pool.specs.Queues.{ephemeral_named};

use bt_cursor::Namer;
use nx_ring::Checkpoint;
use obj_base::Site;

// The block of a mapped object of one block, where it is one of the container.
fn one_block(site: Site, object: &[u8], block: u64) -> Option<u64>
    ensures { result ≡ (if length object.now == site.block_size then in_container site.blocks block else None) }
{
    if object.len() == site.block_size as usize && site.has_block(block) {
        Some(block)
    } else {
        None
    }
}

/// The look-up of ephemeral ids: the block that a checkpoint's mapping has for an id, where the mapped object has one
/// block and that lies in the container (Container, `checkpoint_mapping_t`).
#[derive(Clone, Copy)]
pub struct Ephemeral<'a> {
    pub cp: &'a Checkpoint,
}

impl Namer for Ephemeral<'_> {
    ghost named = { λ namer oid. ephemeral_named namer.cp.now oid };

    fn block(&self, oid: u64) -> Option<u64> {
        let object = self.cp.object(oid)?;
        let block = self.cp.object_block(oid)?;
        one_block(self.cp.site(), object, block)
    }
}
