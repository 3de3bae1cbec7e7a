// The nodes of trees below their roots, as the steps of the trees name them.
ghost use Rattle.std.specs.Prelude.{◌≡◌, ◌++◌, map, OnOk};
ghost use Rattle.reach_rules.specs.declared.naming.LookUp.TheVariants.{ByBlock, ByMapping};
ghost use Rattle.reach_rules.specs.declared.naming.Object.TheVariants.{InBlock, OfId};
ghost use Rattle.reach_gather.specs.Namings.{level_below, step_naming};
ghost use Rattle.reach_gather.specs.Steps.{block_steps, id_steps, block_owner};

use crate::Gathered;
use blk_source::NoMemory;
use bt_cursor::Step;
use reach_rules::{Expected, LookUp, Namer, Naming, Object, TreeKind};

// The level below a level.
fn below(level: u16) -> u16
    ensures { result ≡ level_below level }
{
    if level == 0 { 0 } else { level - 1 }
}

// The naming of a step in a tree of physical nodes.
fn block_step(tree: TreeKind, step: &Step) -> Naming
    ensures { result ≡ step_naming InBlock tree ByBlock step.now }
{
    Naming {
        namer: Namer::Whole(Object::InBlock(step.node)),
        at: step.at,
        expected: Expected::TreeNode(tree, below(step.level)),
        how: LookUp::ByBlock,
        oid: step.child,
    }
}

// The naming of a step in a tree of ephemeral nodes.
fn id_step(tree: TreeKind, step: &Step) -> Naming
    ensures { result ≡ step_naming OfId tree ByMapping step.now }
{
    Naming {
        namer: Namer::Whole(Object::OfId(step.node)),
        at: step.at,
        expected: Expected::TreeNode(tree, below(step.level)),
        how: LookUp::ByMapping,
        oid: step.child,
    }
}

/// The nodes below the root of a tree of physical nodes, each with its block.
pub(crate) fn note_blocks(
    out: &mut Gathered,
    tree: TreeKind,
    steps: &[Step],
) -> Result<(), NoMemory>
    ensures namings { OnOk result (out.new.namings ≡ out.old.namings ++ block_steps tree steps.now) }
    ensures owners { OnOk result (out.new.owners ≡ out.old.owners ++ map block_owner (block_steps tree steps.now)) }
    ensures pool_owners { out.new.pool_owners ≡ out.old.pool_owners }
{
    for step in steps {
        out.note_block(block_step(tree, step))?;
    }
    Ok(())
}

/// The nodes below the root of a tree of ephemeral nodes.
pub(crate) fn note_ids(out: &mut Gathered, tree: TreeKind, steps: &[Step]) -> Result<(), NoMemory>
    ensures namings { OnOk result (out.new.namings ≡ out.old.namings ++ id_steps tree steps.now) }
    ensures owners { out.new.owners ≡ out.old.owners }
    ensures pool_owners { out.new.pool_owners ≡ out.old.pool_owners }
{
    for step in steps {
        out.note_id(id_step(tree, step))?;
    }
    Ok(())
}
