// Putting an item into a folder.
ghost use Rattle.std.specs.Prelude.{◌≡◌, ◌≤◌, ℕ, List, [], ◌∷◌, Some, Err, true, IfOk, IfErr};
ghost use Rattle.std.specs.List.{cons_option};
ghost use Rattle.apfs_model.specs.Counts.{Rose};
ghost use Rattle.apfs_model.specs.Kept.{IsKept};
ghost use Rattle.obj_base.specs.Site.{IsSiteFor};
ghost use Rattle.obj_base.specs.Stops.{raised};
ghost use Rattle.obj_base.specs.declared.stop.Stop.TheVariants.{ReadFault};
ghost use Rattle.vol_view.specs.Views.{view_flat, is_view_ordered};
ghost use Rattle.view_rules.specs.Rules.{view_facts};
ghost use Rattle.path_read.specs.Contents.{stream_in};
ghost use Rattle.blk_folder.specs.Items.{file_at};
ghost use Rattle.tree_export.specs.Exported.{put_for, put_all};
ghost use Rattle.tree_export.specs.Stopping.{wanted_of, IsExportStop};
ghost use Rattle.tree_export.specs.Filled.{HasFilled};
ghost use Rattle.tree_export.specs.Safe.{IsSafe};
ghost use Rattle.tree_export.specs.Faults.{HasInode};
ghost use Rattle.tree_export.specs.Parts.{put_as, IsPut, IsFileStop, IsContentStop};
ghost use Rattle.tree_export.specs.declared.stop.ExportFault.TheVariants as faults;
ghost use Rattle.tree_export.specs.declared.stop.ExportStop.TheVariants.{Stopped, WriteFault};

use crate::content::Content;
use crate::lookup::content_for;
use crate::pieces::put_pieces;
use crate::safe::safe_path;
use crate::{ExportFault, ExportStop, Item};
use blk_folder::Folder;
use blk_source::BlockSource;
use file_extent::{CopyFault, Stream, StreamStop};
use obj_base::{Site, Stop};
use std::alloc::Global;
use vol_view::{View, Volume};

/// What was put for an item.
#[derive(Clone, Copy, PartialEq, Eq)]
pub(crate) enum Put {
    Directory,
    /// A file of so many bytes.
    File { bytes: u64 },
    Nothing,
}

// Why a stream can't be opened, said of the item of an id.
fn raise(id: u64, stop: Stop<StreamStop>) -> Stop<ExportFault>
    ensures { result ≡ raised (faults.Stream id) stop }
{
    stop.map(|why| ExportFault::Stream { id, why })
}

// Puts a file with the bytes of a stream, of the item of an id. The stream is opened before the file is there.
fn put_file<S: BlockSource, F: Folder>(
    alloc: Global,
    src: &mut S,
    volume: &Volume,
    view: &View,
    site: &Site,
    id: u64,
    path: &str,
    stream: u64,
    size: u64,
    folder: &mut F,
) -> Result<(), ExportStop>
    requires site { IsSiteFor site.now (S.bytes_len src.old) }
    requires safe { IsSafe path.now }
    ensures filled { HasFilled (F.contents folder.old) (F.contents folder.new) (S.bytes src.old) (λ image. is_view_ordered image site.now volume.now view.now ≡ true) (λ image. file_at path.now (stream_in site.now.block_size image (view_facts image site.now volume.now view.now) stream size) ∷ []) result }
    ensures present { (image : List ℕ) → S.bytes src.old ≡ Some image → IfErr result (IsFileStop image site.now volume.now view.now id stream) }
    ensures read_cause { result ≡ Err (Stopped ReadFault) → Rose (S.faults src.old) (S.faults src.new) }
    ensures write_cause { result ≡ Err WriteFault → Rose (F.faults folder.old) (F.faults folder.new) }
    ensures kept { IsKept S.bytes S.bytes_len S.faults src.old src.new }
    ensures later { F.faults folder.old ≤ F.faults folder.new }
{
    let stream = match Stream::start(alloc, src, volume, view, stream, size, site) {
        Ok(stream) => stream,
        Err(stop) => return Err(ExportStop::Stopped(raise(id, stop))),
    };
    match folder.start_file(path) {
        Ok(()) => {}
        Err(_) => return Err(ExportStop::WriteFault),
    }
    match put_pieces(src, &stream, folder) {
        Ok(()) => Ok(()),
        Err(CopyFault::ReadFault) => Err(ExportStop::Stopped(Stop::ReadFault)),
        Err(CopyFault::WriteFault) => Err(ExportStop::WriteFault),
    }
}

// Puts a content at a path, of the item of an id.
fn put_content<S: BlockSource, F: Folder>(
    alloc: Global,
    src: &mut S,
    volume: &Volume,
    view: &View,
    site: &Site,
    id: u64,
    path: &str,
    content: Content,
    folder: &mut F,
) -> Result<Put, ExportStop>
    requires site { IsSiteFor site.now (S.bytes_len src.old) }
    requires safe { IsSafe path.now }
    ensures filled { HasFilled (F.contents folder.old) (F.contents folder.new) (S.bytes src.old) (λ image. is_view_ordered image site.now volume.now view.now ≡ true) (λ image. cons_option (put_as site.now.block_size image (view_facts image site.now volume.now view.now) path.now content) []) result }
    ensures told { (image : List ℕ) → IfOk result (IsPut (put_as site.now.block_size image (view_facts image site.now volume.now view.now) path.now content)) }
    ensures present { (image : List ℕ) → S.bytes src.old ≡ Some image → IfErr result (IsContentStop image site.now volume.now view.now id content) }
    ensures read_cause { result ≡ Err (Stopped ReadFault) → Rose (S.faults src.old) (S.faults src.new) }
    ensures write_cause { result ≡ Err WriteFault → Rose (F.faults folder.old) (F.faults folder.new) }
    ensures kept { IsKept S.bytes S.bytes_len S.faults src.old src.new }
    ensures later { F.faults folder.old ≤ F.faults folder.new }
{
    match content {
        Content::Directory => match folder.make_dir(path) {
            Ok(()) => Ok(Put::Directory),
            Err(_) => Err(ExportStop::WriteFault),
        },
        Content::Empty => match folder.start_file(path) {
            Ok(()) => Ok(Put::File { bytes: 0 }),
            Err(_) => Err(ExportStop::WriteFault),
        },
        Content::Stream { id: stream, size } => {
            match put_file(
                alloc, src, volume, view, site, id, path, stream, size, folder,
            ) {
                Ok(()) => Ok(Put::File { bytes: size }),
                Err(stop) => Err(stop),
            }
        }
        Content::Nothing => Ok(Put::Nothing),
    }
}

/// Puts an item: what the inode of its id gives, at its path as it is written.
pub(crate) fn put_item<S: BlockSource, F: Folder>(
    alloc: Global,
    src: &mut S,
    volume: &Volume,
    view: &View,
    site: &Site,
    item: &Item,
    folder: &mut F,
) -> Result<Put, ExportStop>
    requires site { IsSiteFor site.now (S.bytes_len src.old) }
    ensures filled { HasFilled (F.contents folder.old) (F.contents folder.new) (S.bytes src.old) (λ image. is_view_ordered image site.now volume.now view.now ≡ true) (λ image. put_all site.now.block_size image (view_facts image site.now volume.now view.now) (wanted_of item.now ∷ [])) result }
    ensures told { (image : List ℕ) → S.bytes src.old ≡ Some image → is_view_ordered image site.now volume.now view.now ≡ true → IfOk result (IsPut (put_for site.now.block_size image (view_facts image site.now volume.now view.now) (wanted_of item.now))) }
    ensures record { (image : List ℕ) → S.bytes src.old ≡ Some image → IfOk result (λ put. HasInode (view_flat image site.now volume.now view.now) item.now.id) }
    ensures present { (image : List ℕ) → S.bytes src.old ≡ Some image → IfErr result (IsExportStop image site.now volume.now view.now item.now.id) }
    ensures read_cause { result ≡ Err (Stopped ReadFault) → Rose (S.faults src.old) (S.faults src.new) }
    ensures write_cause { result ≡ Err WriteFault → Rose (F.faults folder.old) (F.faults folder.new) }
    ensures kept { IsKept S.bytes S.bytes_len S.faults src.old src.new }
    ensures later { F.faults folder.old ≤ F.faults folder.new }
{
    let content = match content_for(alloc, src, volume, view, site, item.id) {
        Ok(content) => content,
        Err(stop) => return Err(ExportStop::Stopped(stop)),
    };
    let path = match safe_path(alloc, &item.path) {
        Ok(path) => path,
        Err(_) => return Err(ExportStop::Stopped(Stop::NoMemory)),
    };
    match put_content(
        alloc, src, volume, view, site, item.id, &path, content, folder,
    ) {
        Ok(put) => Ok(put),
        Err(stop) => Err(stop),
    }
}
