// Made containers, opened.
ghost use Rattle.std.specs.Prelude.{length, IfOk, ◌≡◌};
ghost use Rattle.obj_base.specs.Site.{IsSiteFor};
ghost use Rattle.nx_ring.specs.Checkpoint.{site_of};

use crate::tests::made::{Holds, image_of};
use crate::tests::walks::why;
use blk_source::MemSource;
use nx_ring::{Checkpoint, newest};
use obj_base::{Site, Stop};
use std::alloc::Global;
use std::test::Fail;
use view_tree::{KeptRows, tree_rows};
use vol_view::{View, VolStop, Volume, heads, live, load, past};

/// The volume in a place among those of a checkpoint.
pub(super) fn volume_in(
    alloc: Global,
    src: &mut MemSource,
    cp: &Checkpoint,
    place: usize,
) -> Result<Volume, Stop<VolStop>>
    requires { IsSiteFor (site_of cp.now) (length src.old.bytes) }
    ensures { length src.new.bytes ≡ length src.old.bytes }
{
    let found = match heads(alloc, src, cp) {
        Ok(found) => found,
        Err(stop) => return Err(stop),
    };
    if place >= found.len() {
        return Err(Stop::NoMemory);
    }
    load(alloc, src, cp, &found[place])
}

/// A view of the only volume of a container, with the volume, its site, and what it is read from.
#[derive(Drop)]
pub(super) struct Opened {
    pub(super) src: MemSource,
    pub(super) volume: Volume,
    pub(super) view: View,
    pub(super) site: Site,
}

// The view that the snapshot of a number keeps, or the live one.
fn view_of(volume: &Volume, cp: &Checkpoint, snapshot: Option<usize>) -> Option<View> {
    let Some(number) = snapshot else {
        return Some(live(volume, cp));
    };
    if number >= volume.snaps.len() {
        return None;
    }
    Some(past(volume, number))
}

// The only volume, its view and the site.
fn seen(
    alloc: Global,
    src: &mut MemSource,
    snapshot: Option<usize>,
) -> Result<(Volume, View, Site), Fail>
    ensures { IfOk result (λ seen. IsSiteFor seen.2 (length src.new.bytes)) }
{
    let Ok(cp) = newest(alloc, src) else {
        return Err(Fail::from("there is no checkpoint"));
    };
    let Ok(volume) = volume_in(alloc, src, &cp, 0) else {
        return Err(Fail::from("there is no volume"));
    };
    let Some(view) = view_of(&volume, &cp, snapshot) else {
        return Err(Fail::from("there is no such snapshot"));
    };
    Ok((volume, view, cp.site()))
}

/// The view of what an image holds, where the reads of these numbers are refused.
pub(super) fn open(
    alloc: Global,
    holds: Holds,
    fails: Vec<u64>,
    snapshot: Option<usize>,
) -> Result<Opened, Fail>
    ensures { IfOk result (λ at. IsSiteFor at.site (length at.src.bytes)) }
{
    let mut src = MemSource::new(image_of(alloc, holds)?, fails);
    let (volume, view, site) = seen(alloc, &mut src, snapshot)?;
    Ok(Opened {
        src,
        volume,
        view,
        site,
    })
}

/// The rows of the view's tree at a path.
pub(super) fn rows_of(alloc: Global, at: &mut Opened, path: &str) -> Result<KeptRows, Fail>
    requires { IsSiteFor at.old.site (length at.old.src.bytes) }
    ensures { IsSiteFor at.new.site (length at.new.src.bytes) }
{
    match tree_rows(alloc, &mut at.src, &at.volume, &at.view, &at.site, path) {
        Ok(rows) => Ok(rows),
        Err(stop) => Err(Fail::from(why(stop))),
    }
}

/// Those of what an image holds.
pub(super) fn rows_in(alloc: Global, holds: Holds, path: &str) -> Result<KeptRows, Fail> {
    let mut at = open(alloc, holds, Vec::new(alloc), None)?;
    rows_of(alloc, &mut at, path)
}
