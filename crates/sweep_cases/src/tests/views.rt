// The sweep of eight snapshots of a volume. What is wanted was worked out by hand.
ghost use Rattle.std.specs.Prelude.{◌≡◌, ◌<◌, ◌≤◌, length, IfOk};
ghost use Rattle.obj_base.specs.Site.{IsSiteFor};
ghost use Rattle.view_sweep.specs.Wanted.{AreToldHeads, AreBelowHeads};

mod shares;
mod uses;

use blk_source::MemSource;
use bt_node::NodeFault;
use img_make::{Sample, edit, make, sample, table};
use nx_ring::newest;
use obj_base::{HeadFault, Site, Stop, Within};
use omap_map::OmapRecord;
use reach_rules::{ReachFault, Why};
use std::alloc::{AllocError, Global};
use std::test::Fail;
use view_sweep::{Head, MapRecords, SweptView, Used, reach_views, unused};
use vol_view::{Volume, heads, load};

// The block of the volume's object map.
const MAP: u64 = 52;

// The only volume of an image, with its site.
#[derive(Drop)]
struct Opened {
    volume: Volume,
    site: Site,
}

fn open(alloc: Global, src: &mut MemSource) -> Result<Opened, Fail>
    ensures { IfOk result (λ at. IsSiteFor at.site (length src.new.bytes)) }
{
    let Ok(cp) = newest(alloc, src) else {
        return Err(Fail::from("there is no checkpoint"));
    };
    let found = match heads(alloc, src, &cp) {
        Ok(found) => found,
        Err(_) => return Err(Fail::from("there are no heads")),
    };
    if found.is_empty() {
        return Err(Fail::from("there is no volume"));
    }
    let volume = match load(alloc, src, &cp, &found[0]) {
        Ok(volume) => volume,
        Err(_) => return Err(Fail::from("the volume isn't loaded")),
    };
    Ok(Opened {
        volume,
        site: cp.site(),
    })
}

// The views of the eight snapshots, whose transactions are 1 to 8: of some volumes in turn, and with the one root or the
// other in turn.
fn eight(alloc: Global, volumes: u64, roots: [u64; 2]) -> Result<Vec<Head>, AllocError>
    requires some { 0 < volumes }
    requires few { volumes ≤ 2 }
    ensures told { IfOk result (λ heads. AreToldHeads heads.items) }
    ensures below { IfOk result (λ heads. AreBelowHeads volumes heads.items) }
    ensures within { IfOk result (λ heads. AreBelowHeads 2 heads.items) }
{
    let mut heads = Vec::new(alloc);
    for place in 1u64..9 {
        let volume = place % volumes;
        let view = SweptView {
            slot: volume as u32,
            place,
            xid: place,
            map: MAP,
            hashed: true,
            volume: volume as usize,
        };
        heads.push(Head {
            view,
            root_oid: roots[(place % 2) as usize],
            meta_ext: 0,
        })?;
    }
    Ok(heads)
}

// What the sweep of the eight snapshots answers, of the sample with one byte changed.
fn swept(
    alloc: Global,
    root_oid: u64,
    byte: Option<(usize, usize, u8)>,
) -> Result<Result<Vec<Used>, Stop<ReachFault>>, Fail> {
    let plan = sample(alloc, Sample::V2)?;
    let mut image = make(alloc, &plan)?;
    if let Some((block, at, value)) = byte {
        if !edit(&mut image, 4096, block, at, &[value]) {
            return Err(Fail::from("no such place"));
        }
    }
    let mut src = MemSource::new(image, Vec::new(alloc));
    let at = open(alloc, &mut src)?;
    let heads = eight(alloc, 1, [root_oid; 2])?;
    let volumes = [at.volume];
    Ok(reach_views(alloc, &mut src, &at.site, &volumes, &heads))
}

// The id of a record, its transaction and its block: the root of all versions, the leaf of the name before and after transaction 4,
// and the leaf that never changed.
const USED: &[(u64, u64, u64)] = table! {
    1028, 1, 54; 1031, 1, 57; 1031, 4, 58; 1032, 1, 59;
};

// Whether a record is among those that are used.
fn is_used(used: &[Used], oid: u64, xid: u64, paddr: u64) -> bool {
    let mapping = OmapRecord {
        oid,
        xid,
        flags: 0,
        size: 4096,
        paddr,
    };
    used.contains(&Used { map: MAP, mapping })
}

#[test]
fn eight_views_use_four_records(rt: HostRuntime) -> Result<(), Fail> {
    let Ok(used) = swept(rt.alloc(), 1028, None)? else {
        panic!(rt; "it stops");
    };
    assert!(rt; used.len() == 4);
    for &(oid, xid, paddr) in USED {
        assert!(rt; is_used(&used, oid, xid, paddr), "{oid} {xid}");
    }
    Ok(())
}

// The id of the root, a byte that is changed, and what stops the sweep.
type Stopped = (u64, Option<(usize, usize, u8)>, ReachFault);

// An id without a record, and a leaf whose header says another object.
const STOPS: &[Stopped] = table! {
    1027, None, ReachFault::Unnamed { within: Within::Volume(0), oid: 1027, xid: 1 };
    1028, Some((58, 8, 1)), ReachFault::Unsound { block: 58, why: Why::Node(NodeFault::Head(HeadFault::BadOid)) };
};

#[test]
fn what_stops_the_sweep(rt: HostRuntime) -> Result<(), Fail> {
    for &(root_oid, byte, fault) in STOPS {
        let stop = swept(rt.alloc(), root_oid, byte)?.err();
        assert!(rt; stop == Some(Stop::Found(fault)), "{root_oid}");
    }
    Ok(())
}

// A record of a map.
const KEPT: OmapRecord = OmapRecord {
    oid: 7,
    xid: 1,
    flags: 0,
    size: 4096,
    paddr: 60,
};

// Another one, which is marked deleted.
const DELETED: OmapRecord = OmapRecord {
    oid: 8,
    flags: 1,
    ..KEPT
};

// A map with these two records.
const MAPS: &[MapRecords<'static>] = &[MapRecords {
    within: Within::Volume(0),
    map: MAP,
    records: &[KEPT, DELETED],
}];

// What is told where the first record isn't used.
const IDLE: ReachFault = ReachFault::UnusedMapping {
    within: Within::Volume(0),
    oid: 7,
    xid: 1,
};

// The only record that is used, and whether all is well: the one that isn't marked deleted, another map's, or the deleted one.
const USES: &[(Used, bool)] = table! {
    Used { map: MAP, mapping: KEPT }, true;
    Used { map: MAP + 1, mapping: KEPT }, false;
    Used { map: MAP, mapping: DELETED }, false;
};

#[test]
fn what_is_not_used(rt: HostRuntime) -> Result<(), Fail> {
    for &(one, is_well) in USES {
        let wanted = if is_well {
            Ok(())
        } else {
            Err(Stop::Found(IDLE))
        };
        assert!(rt; unused(rt.alloc(), MAPS, &[one]) == wanted);
    }
    Ok(())
}
