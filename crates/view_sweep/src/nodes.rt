// Testing what a record leads to, as it is wanted, and what it wants in turn.
ghost use Rattle.std.specs.Prelude.{◌≡◌, ◌+◌, ◌++◌, ℕ, true, length, Some, OnOk, IfErr, IsErrOf, is_ok};
ghost use Rattle.apfs_model.specs.Object.{extended_metadata_kind};
ghost use Rattle.obj_base.specs.BlockSize.{is_accepted};
ghost use Rattle.obj_base.specs.Stops.{Tells};
ghost use Rattle.obj_base.specs.declared.stop.Stop.TheVariants.{ReadFault, NoMemory};
ghost use Rattle.bt_node.specs.Entries.{children_of};
ghost use Rattle.bt_node.specs.Node as fields;
ghost use Rattle.bt_node.specs.Soundness.{node_of};
ghost use Rattle.bt_node.specs.SoundNode.{IsNode};
ghost use Rattle.reach_rules.specs.declared.naming.TreeKind.TheVariants.{Files};
ghost use Rattle.reach_rules.specs.Next.{children_in};
ghost use Rattle.reach_rules.specs.Tested.{node_answer, head_tested};
ghost use Rattle.view_sweep.specs.Found.{tested_as, is_sound, kids_from, kids_by, wants_of};
ghost use Rattle.view_sweep.specs.Tests.{IsNodeFault, IsNodeFeature, IsFaultOf, IsFeatureOf};

use crate::used::Hit;
use crate::wanted::{Want, Wanted};
use apfs_layout::kind;
use bt_keys::{FsKey, FsPlainKey};
use bt_node::{NodeAt, NodeFault, NodeView, TreeKey};
use obj_base::{Bad, Expect, Site, Stop, sound};
use reach_rules::{ReachFault, Why};

// What a node of a level above 0 names, one level lower.
fn add_kids<K: TreeKey>(
    node: &NodeView<'_, K>,
    hit: &Hit,
    level: u16,
    out: &mut Vec<Wanted>,
) -> Result<(), Stop<ReachFault>>
    requires { fields.level_of node.now ≡ level + 1 }
    ensures added { OnOk result (out.new.items ≡ out.old.items ++ kids_from hit.now.wanted.view hit.now.mapping level 0 (children_of K.shape node.now)) }
    ensures memory_only { IfErr result (λ stop. stop ≡ NoMemory) }
{
    for entry in 0..node.len() {
        out.push(Wanted {
            view: hit.wanted.view,
            oid: node.child(entry),
            want: Want::Node {
                level,
                namer: hit.mapping,
                entry,
            },
        })?;
    }
    Ok(())
}

// What a node names: nothing at level 0.
fn add_below<K: TreeKey>(
    node: &NodeView<'_, K>,
    hit: &Hit,
    out: &mut Vec<Wanted>,
) -> Result<(), Stop<ReachFault>>
    ensures added { OnOk result (out.new.items ≡ out.old.items ++ kids_by hit.now.wanted.view hit.now.mapping (fields.level_of node.now) (children_of K.shape node.now)) }
    ensures memory_only { IfErr result (λ stop. stop ≡ NoMemory) }
{
    let level = node.level();
    if level == 0 {
        return Ok(());
    }
    add_kids(node, hit, level - 1, out)
}

// Tests a node as it is wanted, and adds what it names.
fn take_node<K: TreeKey>(
    bytes: &[u8],
    at: &NodeAt,
    site: &Site,
    hit: &Hit,
    out: &mut Vec<Wanted>,
) -> Result<(), Stop<ReachFault>>
    requires accepted { is_accepted site.now.block_size ≡ true }
    requires long { length bytes.now ≡ site.now.block_size }
    ensures node { OnOk result (IsNode K.shape at.now site.now bytes.now) }
    ensures added { OnOk result (out.new.items ≡ out.old.items ++ kids_by hit.now.wanted.view hit.now.mapping (fields.level_of bytes.now) (children_of K.shape bytes.now)) }
    ensures stops { IfErr result (Tells (IsNodeFault hit.now.mapping.paddr (node_of K.shape at.now site.now bytes.now)) (IsNodeFeature hit.now.mapping.paddr (node_of K.shape at.now site.now bytes.now))) }
    ensures no_read { IsErrOf result ReadFault → ⊥ }
{
    let block = hit.mapping.paddr;
    match NodeView::<K>::read(bytes, at, site) {
        Ok(node) => add_below(&node, hit, out),
        Err(Bad::Found(why)) => Err(Stop::Found(ReachFault::Unsound {
            block,
            why: Why::Node(why),
        })),
        Err(Bad::Unsupported(feature)) => Err(Stop::Unsupported { feature, block }),
    }
}

// Tests a node below a root, or a root, with hashed names or without, and adds what it names.
fn take_files(
    bytes: &[u8],
    at: &NodeAt,
    site: &Site,
    hit: &Hit,
    out: &mut Vec<Wanted>,
) -> Result<(), Stop<ReachFault>>
    requires accepted { is_accepted site.now.block_size ≡ true }
    requires long { length bytes.now ≡ site.now.block_size }
    ensures node { OnOk result (is_ok (node_answer (Files hit.now.wanted.view.hashed) at.now site.now bytes.now) ≡ true) }
    ensures level { (level : ℕ) → at.now.level ≡ Some level → OnOk result (fields.level_of bytes.now ≡ level) }
    ensures added { OnOk result (out.new.items ≡ out.old.items ++ kids_by hit.now.wanted.view hit.now.mapping (fields.level_of bytes.now) (children_in (Files hit.now.wanted.view.hashed) bytes.now)) }
    ensures stops { IfErr result (Tells (IsNodeFault hit.now.mapping.paddr (node_answer (Files hit.now.wanted.view.hashed) at.now site.now bytes.now)) (IsNodeFeature hit.now.mapping.paddr (node_answer (Files hit.now.wanted.view.hashed) at.now site.now bytes.now))) }
    ensures no_read { IsErrOf result ReadFault → ⊥ }
{
    if hit.wanted.view.hashed {
        take_node::<FsKey>(bytes, at, site, hit, out)
    } else {
        take_node::<FsPlainKey>(bytes, at, site, hit, out)
    }
}

// Tests extended metadata.
fn take_metadata(bytes: &[u8], site: &Site, hit: &Hit) -> Result<(), Stop<ReachFault>>
    requires accepted { is_accepted site.now.block_size ≡ true }
    requires long { length bytes.now ≡ site.now.block_size }
    ensures sound { OnOk result (is_ok (head_tested site.now extended_metadata_kind (Some hit.now.wanted.oid) bytes.now) ≡ true) }
    ensures stops { IfErr result (Tells (IsFaultOf hit.now.mapping.paddr (head_tested site.now extended_metadata_kind (Some hit.now.wanted.oid) bytes.now)) (IsFeatureOf hit.now.mapping.paddr (head_tested site.now extended_metadata_kind (Some hit.now.wanted.oid) bytes.now))) }
    ensures no_read { IsErrOf result ReadFault → ⊥ }
{
    let block = hit.mapping.paddr;
    let expect = Expect {
        kind: kind::EXTENDED_METADATA,
        subtype: None,
        oid: Some(hit.wanted.oid),
        max_xid: site.max_xid,
    };
    match sound(bytes, &expect) {
        Ok(_) => Ok(()),
        Err(Bad::Found(why)) => Err(Stop::Found(ReachFault::Unsound {
            block,
            why: Why::Node(NodeFault::Head(why)),
        })),
        Err(Bad::Unsupported(feature)) => Err(Stop::Unsupported { feature, block }),
    }
}

/// Tests what a record leads to, as it is wanted, and adds what it wants in turn.
#[tactic(auto, unfolding(reach_rules::specs::Tested::tested))]
pub(crate) fn take(
    bytes: &[u8],
    site: &Site,
    hit: &Hit,
    out: &mut Vec<Wanted>,
) -> Result<(), Stop<ReachFault>>
    requires accepted { is_accepted site.now.block_size ≡ true }
    requires long { length bytes.now ≡ site.now.block_size }
    ensures sound { OnOk result (is_sound site.now hit.now.wanted bytes.now ≡ true) }
    ensures added { OnOk result (out.new.items ≡ out.old.items ++ wants_of hit.now.wanted hit.now.mapping bytes.now) }
    ensures stops { IfErr result (Tells (IsFaultOf hit.now.mapping.paddr (tested_as site.now hit.now.wanted bytes.now)) (IsFeatureOf hit.now.mapping.paddr (tested_as site.now hit.now.wanted bytes.now))) }
    ensures no_read { IsErrOf result ReadFault → ⊥ }
{
    let oid = hit.wanted.oid;
    match hit.wanted.want {
        Want::Root => {
            let at = NodeAt {
                oid,
                root: true,
                level: None,
            };
            take_files(bytes, &at, site, hit, out)
        }
        Want::Metadata => take_metadata(bytes, site, hit),
        Want::Node { level, .. } => {
            let at = NodeAt {
                oid,
                root: false,
                level: Some(level),
            };
            take_files(bytes, &at, site, hit, out)
        }
    }
}
