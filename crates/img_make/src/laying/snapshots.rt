// The snapshots of a volume: what each keeps, and the two trees that list them.
ghost use Rattle.img_make.specs.Images.{HasGrown};

use crate::laying::files::root_of;
use crate::laying::image::{Image, add};
use crate::laying::physical::put_physical;
use crate::objects::volume::{Places, volume_superblock};
use img_edit::node::Tree;
use img_plan::records::{map_snapshot, snapshot_name, snapshot_record};
use img_plan::{Item, Version, VolPlan};
use std::alloc::{AllocError, Global};

/// The records of a volume's snapshots.
#[derive(Drop)]
pub(crate) struct Kept {
    /// Those of the snapshot metadata tree, and those of the names, which follow them there.
    pub metadata: Vec<Item>,
    pub names: Vec<Item>,
    /// Those of the object map's snapshot tree.
    pub in_map: Vec<Item>,
    /// The transaction of the latest snapshot.
    pub latest: u64,
}

// What one snapshot keeps: its volume superblock and an empty extent reference tree, each in the first free block.
fn put_snapshot(
    alloc: Global,
    image: &mut Image,
    volume: &VolPlan,
    version: &Version,
    places: &Places,
    kept: &mut Kept,
) -> Result<(), AllocError>
    ensures { HasGrown image.old image.new }
{
    let superblock = image.place()?;
    let extents = image.place()?;
    let root = root_of(version, places.root);
    let then = places.at(version.xid, root, extents, kept.in_map.len());
    let geometry = image.geometry;
    image.store(
        superblock,
        volume_superblock(alloc, geometry, volume, &then),
    )?;
    put_physical(
        alloc,
        image,
        &Tree::EXTENTS,
        extents,
        version.xid,
        Vec::new(alloc),
    )?;
    kept.add(alloc, version, extents as u64, superblock as u64)
}

impl Kept {
    // The records of one snapshot more. A name of more than 1,022 bytes isn't told.
    fn add(
        &mut self,
        alloc: Global,
        version: &Version,
        extents: u64,
        superblock: u64,
    ) -> Result<(), AllocError> {
        let name: &[u8] = match &version.snapshot {
            Some(name) => name,
            None => &[],
        };
        if name.len() <= 1022 {
            let record = snapshot_record(alloc, version.xid, extents, superblock, name);
            add(&mut self.metadata, record)?;
            add(&mut self.names, snapshot_name(alloc, version.xid, name))?;
        }
        add(&mut self.in_map, map_snapshot(alloc, version.xid))?;
        self.latest = version.xid;
        Ok(())
    }
}

/// What the snapshots of a volume keep, by ascending transaction.
pub(crate) fn put_snapshots(
    alloc: Global,
    image: &mut Image,
    volume: &VolPlan,
    places: &Places,
) -> Result<Kept, AllocError>
    ensures { HasGrown image.old image.new }
{
    let mut kept = Kept {
        metadata: Vec::new(alloc),
        names: Vec::new(alloc),
        in_map: Vec::new(alloc),
        latest: 0,
    };
    for version in volume.versions.iter() {
        if version.snapshot.is_some() {
            put_snapshot(alloc, image, volume, version, places, &mut kept)?;
        }
    }
    Ok(kept)
}
