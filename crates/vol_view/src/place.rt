// Where a volume lies, by the container's map.
ghost use Rattle.std.specs.Prelude.{◌≡◌, ◌<◌, ℕ, Some, IfOk, IsErrOf};
ghost use Rattle.apfs_model.specs.Blocks.{in_container};
ghost use Rattle.obj_base.specs.Stops.{Gives};
ghost use Rattle.obj_base.specs.declared.stop.Stop.TheVariants.{ReadFault, NoMemory};
ghost use Rattle.vol_view.specs.Slots.{plain_of, located};

use crate::VolStop;
use apfs_layout::object_map;
use obj_base::{Feature, Site, Stop, Within};
use omap_map::{Omap, Place};

// A place, where it has no feature.
fn plain(place: Place, site: &Site) -> Result<Place, Stop<VolStop>>
    ensures first { Gives (λ place. place) result (plain_of site.now.block_size place) }
    ensures same { IfOk result (λ plain. plain ≡ place) }
    ensures no_read { IsErrOf result ReadFault → ⊥ }
    ensures no_memory { IsErrOf result NoMemory → ⊥ }
{
    let block = place.block;
    if place.flags & object_map::ENCRYPTED == object_map::ENCRYPTED {
        return Err(Stop::Unsupported {
            feature: Feature::Encrypted,
            block,
        });
    }
    if place.flags & object_map::NO_HEADER == object_map::NO_HEADER {
        return Err(Stop::Unsupported {
            feature: Feature::NoHeader,
            block,
        });
    }
    if place.size != site.block_size {
        return Err(Stop::Unsupported {
            feature: Feature::Size,
            block,
        });
    }
    Ok(place)
}

/// The place of a volume by the records of the container's map.
pub(crate) fn locate(omap: &Omap, oid: u64, site: &Site) -> Result<Place, Stop<VolStop>>
    ensures first { Gives (λ place. place) result (located site.now omap.now.records oid) }
    ensures below { IfOk result (λ place. place.block < site.now.blocks) }
    ensures inside { IfOk result (λ place. in_container site.now.blocks place.block ≡ Some place.block) }
    ensures no_read { IsErrOf result ReadFault → ⊥ }
    ensures no_memory { IsErrOf result NoMemory → ⊥ }
{
    match omap.resolve(oid, site.max_xid) {
        Some(place) if site.has_block(place.block) => plain(place, site),
        _ => Err(Stop::Found(VolStop::Unnamed {
            within: Within::Container,
            oid,
        })),
    }
}
