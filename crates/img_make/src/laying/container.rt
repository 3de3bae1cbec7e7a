// The container's own objects.
ghost use Rattle.img_make.specs.Images.{HasGrown};

use crate::laying::files::Ids;
use crate::laying::image::Image;
use crate::laying::physical::put_physical;
use crate::laying::queues::put_queues;
use crate::laying::space::put_space;
use crate::laying::volumes::map_records;
use crate::objects::checkpoint_map::{Mapping, checkpoint_map};
use crate::objects::jumpstart::jumpstart;
use crate::objects::object_map::{MapPlan, Placed, object_map};
use crate::objects::reaper::reaper;
use crate::objects::superblock::{Container, superblock};
use apfs_layout::kind;
use img_edit::node::Tree;
use img_edit::places;
use img_plan::Plan;
use std::alloc::{AllocError, Global};

// The container's object map and its tree.
fn put_container_map(
    alloc: Global,
    image: &mut Image,
    xid: u64,
    volumes: &[Placed],
) -> Result<(), AllocError>
    ensures { HasGrown image.old image.new }
{
    let plan = MapPlan {
        block: places::CONTAINER_MAP,
        xid,
        is_container: true,
        tree: places::CONTAINER_MAP_ROOT,
        snap_tree: 0,
        snapshots: 0,
        latest: 0,
    };
    let geometry = image.geometry;
    image.store(places::CONTAINER_MAP, object_map(alloc, geometry, &plan))?;
    let records = map_records(alloc, image, volumes)?;
    put_physical(
        alloc,
        image,
        &Tree::OBJECT_MAP,
        places::CONTAINER_MAP_ROOT,
        xid,
        records,
    )
}

// The jumpstart in the first free block, where there is one; its block, or 0.
fn put_jumpstart(alloc: Global, image: &mut Image, plan: &Plan) -> Result<u64, AllocError>
    ensures { HasGrown image.old image.new }
{
    if plan.jumpstart.is_empty() {
        return Ok(0);
    }
    let at = image.place()?;
    let geometry = image.geometry;
    image.store(
        at,
        jumpstart(alloc, geometry, at, plan.xid, &plan.jumpstart),
    )?;
    Ok(at as u64)
}

// The mappings of the space manager and of the reaper, by ascending oid.
fn first_mappings(alloc: Global) -> Result<Vec<Mapping>, AllocError> {
    let space = Mapping {
        kind: kind::SPACE_MANAGER,
        subtype: 0,
        oid: places::SPACE_OID,
        block: places::SPACE_MANAGER,
    };
    let reaper = Mapping {
        kind: kind::REAPER,
        subtype: 0,
        oid: places::REAPER_OID,
        block: places::REAPER,
    };
    Ok(vec![in alloc; space, reaper]?)
}

// The checkpoint: its map, the reaper, the superblock and the superblock's copy.
fn put_checkpoint(
    alloc: Global,
    image: &mut Image,
    container: &Container<'_>,
    mappings: &mut Vec<Mapping>,
) -> Result<(), AllocError>
    ensures { HasGrown image.old image.new }
{
    mappings.sort_by_key(|mapping| mapping.oid)?;
    let geometry = image.geometry;
    let map = checkpoint_map(alloc, geometry, container.xid, mappings);
    image.store(places::CHECKPOINT_MAP, map)?;
    image.store(places::REAPER, reaper(alloc, geometry, container.xid))?;
    let block = superblock(alloc, geometry, container)?;
    image.put(places::SUPERBLOCK, &block);
    image.put(0, &block);
    Ok(())
}

/// The objects of the container itself, once all others have their blocks.
pub(crate) fn put_container(
    alloc: Global,
    image: &mut Image,
    plan: &Plan,
    volumes: &[Placed],
    ids: &mut Ids,
    pool_blocks: usize,
) -> Result<(), AllocError>
    ensures { HasGrown image.old image.new }
{
    let jumpstart = put_jumpstart(alloc, image, plan)?;
    put_container_map(alloc, image, plan.xid, volumes)?;
    let mut mappings = first_mappings(alloc)?;
    put_queues(alloc, image, plan.xid, &plan.queued, ids, &mut mappings)?;
    put_space(alloc, image, plan.xid, &plan.queued, pool_blocks)?;
    let container = Container {
        blocks: image.used.len() as u64,
        xid: plan.xid,
        next_oid: ids.next,
        data_len: mappings.len(),
        jumpstart,
        volumes,
    };
    put_checkpoint(alloc, image, &container, &mut mappings)
}
