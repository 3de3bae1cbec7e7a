// Filling a folder with the items of a tree.
ghost use Rattle.std.specs.Prelude.{◌≡◌, ◌≤◌, ◌<◌, ℕ, List, Some, Err, true, length, map, All, IfOk, IfErr, OnOk};
ghost use Rattle.apfs_model.specs.Counts.{Rose};
ghost use Rattle.apfs_model.specs.Kept.{IsKept};
ghost use Rattle.obj_base.specs.Site.{IsSiteFor};
ghost use Rattle.obj_base.specs.declared.stop.Stop.TheVariants.{ReadFault};
ghost use Rattle.vol_view.specs.Views.{view_flat, is_view_ordered};
ghost use Rattle.view_rules.specs.Rules.{view_facts};
ghost use Rattle.path_search.specs.Stops.{IsLawful};
ghost use Rattle.blk_folder.specs.Put.{Filled};
ghost use Rattle.tree_export.specs.Exported.{item_of, put_all, items_in, exported};
ghost use Rattle.tree_export.specs.Stopping.{HaveInodes, StopsAt, IsFailure};
ghost use Rattle.tree_export.specs.Filled.{HasFilled};
ghost use Rattle.tree_export.specs.Done.{IsDoneFor};
ghost use Rattle.tree_export.specs.Parts.{TellsMore};
ghost use Rattle.tree_export.specs.declared.stop.ExportStop.TheVariants.{Stopped, WriteFault};

use crate::items::item_at;
use crate::putting::{Put, put_item};
use crate::{Done, ExportStop};
use apfs_model::NoMemory;
use blk_folder::Folder;
use blk_source::BlockSource;
use obj_base::{Site, Stop};
use std::alloc::Global;
use view_tree::{KeptRows, Trail};
use vol_view::{View, Volume};

// Tells of one more item, whose place this is, by what was put for it.
fn tell(done: &mut Done, place: usize, put: Put) -> Result<(), NoMemory>
    ensures { OnOk result (TellsMore done.old place put done.new) }
{
    match put {
        Put::Directory => done.directories = done.directories.saturating_add(1),
        Put::File { bytes } => {
            done.files = done.files.saturating_add(1);
            done.bytes = done.bytes.saturating_add(bytes);
        }
        Put::Nothing => match done.skipped.push(place) {
            Ok(()) => {}
            Err(_) => return Err(NoMemory),
        },
    }
    Ok(())
}

/// Puts the items of the rows of a tree into a folder, one after the other, each by the inode of its id: a directory, or a file
/// with the stream of its inode. For other inodes nothing is put, nor for files that are compressed or dataless. A path is written as
/// `safe_path` gives it. Where a look at the view stops or a call fails, the folder has a front of what was to be put, of whose
/// last file a front of the bytes may be there.
pub fn export<S: BlockSource, F: Folder>(
    alloc: Global,
    src: &mut S,
    volume: &Volume,
    view: &View,
    site: &Site,
    rows: &KeptRows,
    folder: &mut F,
) -> Result<Done, ExportStop>
    requires site { IsSiteFor site.now (S.bytes_len src.old) }
    ensures filled { HasFilled (F.contents folder.old) (F.contents folder.new) (S.bytes src.old) (λ image. is_view_ordered image site.now volume.now view.now ≡ true) (λ image. put_all site.now.block_size image (view_facts image site.now volume.now view.now) (map item_of rows.now)) result }
    ensures exported { (image : List ℕ) → S.bytes src.old ≡ Some image → is_view_ordered image site.now volume.now view.now ≡ true → map item_of rows.now ≡ items_in (view_facts image site.now volume.now view.now) → OnOk result (Filled (F.contents folder.old) (F.contents folder.new) (exported site.now.block_size image (view_facts image site.now volume.now view.now))) }
    ensures done { (image : List ℕ) → S.bytes src.old ≡ Some image → is_view_ordered image site.now volume.now view.now ≡ true → IfOk result (IsDoneFor site.now.block_size image (view_facts image site.now volume.now view.now) (map item_of rows.now)) }
    ensures inside { IfOk result (λ done. All (λ place. place < length rows.now) done.skipped.items) }
    ensures inodes { (image : List ℕ) → S.bytes src.old ≡ Some image → IfOk result (λ done. HaveInodes (view_flat image site.now volume.now view.now) (map item_of rows.now)) }
    ensures present { (image : List ℕ) → S.bytes src.old ≡ Some image → IfErr result (StopsAt image site.now volume.now view.now (map item_of rows.now)) }
    ensures exact { (image : List ℕ) → S.bytes src.old ≡ Some image → IsLawful image site.now volume.now view.now → map item_of rows.now ≡ items_in (view_facts image site.now volume.now view.now) → IfErr result IsFailure }
    ensures read_cause { result ≡ Err (Stopped ReadFault) → Rose (S.faults src.old) (S.faults src.new) }
    ensures write_cause { result ≡ Err WriteFault → Rose (F.faults folder.old) (F.faults folder.new) }
    ensures kept { IsKept S.bytes S.bytes_len S.faults src.old src.new }
    ensures later { F.faults folder.old ≤ F.faults folder.new }
{
    let mut done = Done {
        directories: 0,
        files: 0,
        bytes: 0,
        skipped: Vec::new(alloc),
    };
    let mut trail = Trail::new(alloc);
    for place in 0..rows.len() {
        let item = match item_at(alloc, rows, place, &mut trail) {
            Ok(item) => item,
            Err(_) => return Err(ExportStop::Stopped(Stop::NoMemory)),
        };
        let put = match put_item(alloc, src, volume, view, site, &item, folder) {
            Ok(put) => put,
            Err(stop) => return Err(stop),
        };
        match tell(&mut done, place, put) {
            Ok(()) => {}
            Err(_) => return Err(ExportStop::Stopped(Stop::NoMemory)),
        }
    }
    Ok(done)
}
