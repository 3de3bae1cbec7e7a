// Object maps, with their trees.
ghost use Rattle.std.specs.Prelude.{◌≡◌, ◌∷◌, ◌++◌, ℕ, List, [], map, OnOk};
ghost use Rattle.nx_ring.specs.Checkpoint.{Seen, site_of};
ghost use Rattle.omap_map.specs.Maps.{contents_of};
ghost use Rattle.reach_rules.specs.declared.naming.LookUp.TheVariants.{ByBlock};
ghost use Rattle.reach_rules.specs.declared.naming.Object.TheVariants.{InBlock};
ghost use Rattle.reach_rules.specs.declared.naming.Namer.TheVariants.{Whole};
ghost use Rattle.reach_rules.specs.declared.naming.Expected.TheVariants.{TreeRoot};
ghost use Rattle.reach_rules.specs.Naming.{naming};
ghost use Rattle.reach_gather.specs.Parts.{ExpectsMap};
ghost use Rattle.reach_gather.specs.Volumes.Parts.{IsMapPart};
ghost use Rattle.reach_gather.specs.Adds.{Adds};
ghost use Rattle.reach_gather.specs.Mapped.{past_namings, loaded_namings};
ghost use Rattle.reach_gather.specs.Steps.{block_owner};

use crate::Gathered;
use crate::trees::add_nodes;
use blk_source::NoMemory;
use omap_map::Omap;
use reach_rules::{Expected, LookUp, Namer, Naming, Object, TreeKind};

// The naming of the root of one of the trees of the map in a block.
fn root(block: u64, at: u64, tree: TreeKind, oid: u64) -> Naming
    ensures { result ≡ naming (Whole (InBlock block)) at (TreeRoot tree) ByBlock oid }
{
    Naming {
        namer: Namer::Whole(Object::InBlock(block)),
        at,
        expected: Expected::TreeRoot(tree),
        how: LookUp::ByBlock,
        oid,
    }
}

// Adds the tree of snapshots of the map in a block, where it has one.
fn add_past(block: u64, omap: &Omap, out: &mut Gathered) -> Result<(), NoMemory>
    ensures namings { OnOk result (out.new.namings ≡ out.old.namings ++ past_namings block omap.now) }
    ensures owners { OnOk result (out.new.owners ≡ out.old.owners ++ map block_owner (past_namings block omap.now)) }
    ensures pool_owners { out.new.pool_owners ≡ out.old.pool_owners }
{
    let oid = omap.snap_tree();
    if oid == 0 {
        return Ok(());
    }
    let root = root(block, 56, TreeKind::MapSnapshots, oid);
    add_nodes(TreeKind::MapSnapshots, root, omap.snap_steps(), out)?;
    Ok(())
}

/// Adds an object map that was loaded, by its naming, with its trees. The naming is right (`IsMapPart`). Nothing is read.
pub fn add_map(naming: Naming, omap: &Omap, out: &mut Gathered) -> Result<(), NoMemory>
    requires how { naming.how ≡ ByBlock }
    requires kind { ExpectsMap naming.expected }
    ensures clear { (image : List ℕ) (seen : Seen) → IsMapPart image seen naming → omap.now ≡ contents_of image (site_of seen) naming.oid → OnOk result (Adds image seen (naming ∷ []) [] out.old out.new) }
    ensures namings { OnOk result (out.new.namings ≡ out.old.namings ++ loaded_namings naming omap.now) }
{
    out.note_block(naming)?;
    let root = root(naming.oid, 48, TreeKind::MapRecords, omap.tree());
    add_nodes(TreeKind::MapRecords, root, omap.steps(), out)?;
    add_past(naming.oid, omap, out)?;
    Ok(())
}
