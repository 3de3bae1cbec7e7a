// A view of a made container, opened.
ghost use Rattle.std.specs.Prelude.{length, IfOk, ◌≡◌};
ghost use Rattle.obj_base.specs.Site.{IsSiteFor};
ghost use Rattle.nx_ring.specs.Checkpoint.{site_of};

use blk_source::MemSource;
use nx_ring::{Checkpoint, newest};
use obj_base::{Site, Stop};
use std::alloc::Global;
use std::test::Fail;
use view_rules::TreeFault;
use vol_view::{View, VolStop, Volume, heads, live, load, past};

// A view of the only volume, with the volume, the site, and what it is read from.
#[derive(Drop)]
pub struct Opened {
    pub src: MemSource,
    pub volume: Volume,
    pub view: View,
    pub site: Site,
}

// The first volume of a checkpoint.
fn volume_of(alloc: Global, src: &mut MemSource, cp: &Checkpoint) -> Result<Volume, Stop<VolStop>>
    requires { IsSiteFor (site_of cp.now) (length src.old.bytes) }
    ensures { length src.new.bytes ≡ length src.old.bytes }
{
    let found = match heads(alloc, src, cp) {
        Ok(found) => found,
        Err(stop) => return Err(stop),
    };
    if found.is_empty() {
        return Err(Stop::NoMemory);
    }
    load(alloc, src, cp, &found[0])
}

// The live view, or from 1 on that of the snapshot of this number.
fn view_of(volume: &Volume, cp: &Checkpoint, number: usize) -> Option<View> {
    if number == 0 {
        return Some(live(volume, cp));
    }
    if number > volume.snaps.len() {
        return None;
    }
    Some(past(volume, number - 1))
}

// The volume, the view of a number, and the site.
fn seen(alloc: Global, src: &mut MemSource, number: usize) -> Result<(Volume, View, Site), Fail>
    ensures { IfOk result (λ seen. IsSiteFor seen.2 (length src.new.bytes)) }
{
    let Ok(cp) = newest(alloc, src) else {
        return Err(Fail::from("there is no checkpoint"));
    };
    let Ok(volume) = volume_of(alloc, src, &cp) else {
        return Err(Fail::from("there is no volume"));
    };
    let Some(view) = view_of(&volume, &cp, number) else {
        return Err(Fail::from("there is no such snapshot"));
    };
    Ok((volume, view, cp.site()))
}

// The view of a number in an image.
pub(super) fn open(alloc: Global, image: Vec<u8>, number: usize) -> Result<Opened, Fail>
    ensures { IfOk result (λ at. IsSiteFor at.site (length at.src.bytes)) }
{
    let mut src = MemSource::new(image, Vec::new(alloc));
    let (volume, view, site) = seen(alloc, &mut src, number)?;
    Ok(Opened {
        src,
        volume,
        view,
        site,
    })
}

// What a test ends with where a view isn't read.
pub(super) fn refusal(_: Stop<TreeFault>) -> Fail {
    Fail::from("the tree isn't whole")
}
