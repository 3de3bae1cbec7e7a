// A node in a block.
ghost use Rattle.std.specs.Prelude.{◌≡◌, ℕ, ◌+◌, ◌<◌, ◌≤◌, List, Some, length, IfOk, IfErr, IsErrOf, IsTrue};
ghost use Rattle.apfs_model.specs.Blocks.{block_of};
ghost use Rattle.apfs_model.specs.Counts.{Rose};
ghost use Rattle.apfs_model.specs.Kept.{IsKept};
ghost use Rattle.obj_base.specs.Site.{IsSiteFor};
ghost use Rattle.obj_base.specs.Stops.{IsFree};
ghost use Rattle.obj_base.specs.declared.stop.Stop.TheVariants.{ReadFault};
ghost use Rattle.bt_node.specs.SoundNode.{IsNode};

use blk_read::read_block;
use blk_source::BlockSource;
use bt_node::{NodeAt, NodeView, TreeKey};
use obj_base::{Site, Stop};

/// Reads the node that is expected in a block; false where the block is outside the container or has no such node.
pub(crate) fn read_node<K: TreeKey, S: BlockSource>(
    src: &mut S,
    site: &Site,
    at: &NodeAt,
    block: u64,
    into: &mut [u8],
) -> Result<bool, Stop<()>>
    requires site { IsSiteFor site.now (S.bytes_len src.old) }
    requires long { length into.old ≡ site.now.block_size }
    ensures node { IfOk result (λ read. IsTrue read → IsNode K.shape at.now site.now into.new) }
    ensures inside { IfOk result (λ read. IsTrue read → block < site.now.blocks) }
    ensures found { (image : List ℕ) → S.bytes src.old ≡ Some image → IfOk result (λ read. IsTrue read → into.new ≡ block_of site.now.block_size image block) }
    ensures reads { S.reads src.new ≤ S.reads src.old + 1 }
    ensures free { IfErr result IsFree }
    ensures cause { IsErrOf result ReadFault → Rose (S.faults src.old) (S.faults src.new) }
    ensures kept { IsKept S.bytes S.bytes_len S.faults src.old src.new }
{
    if block >= site.blocks {
        return Ok(false);
    }
    read_block(src, block, into)?;
    match NodeView::<K>::read(into, at, site) {
        Ok(_) => Ok(true),
        Err(_) => Ok(false),
    }
}
