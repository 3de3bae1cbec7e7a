// The command `export`.
ghost use Rattle.std.specs.Prelude.{◌≡◌, ◌++◌, ◌<◌, [], ◌∷◌, ℕ, List, Some, All, length, map, filter_map, slice_get, IfOk, IfErr, IsErrOf, OnOk};
ghost use Rattle.std.specs.List.{cons_option, flat_map};
ghost use Rattle.std.specs.String.{string_bytes};
ghost use Rattle.apfs_model.specs.Counts.{Rose};
ghost use Rattle.apfs_model.specs.Kept.{IsKept};
ghost use Rattle.obj_base.specs.Site.{IsSiteFor};
ghost use Rattle.nx_ring.specs.Checkpoint.{site_of};
ghost use Rattle.cmd_words.specs.Lent.{target_asked};
ghost use Rattle.view_rules.specs.Rules.{view_facts};
ghost use Rattle.view_rules.specs.declared.profile.Profile.TheVariants.{Plain};
ghost use Rattle.path_search.specs.Stops.{IsLawful};
ghost use Rattle.path_search.specs.Calls.{IsNoAnswer};
ghost use Rattle.apfs_check.specs.WellFormed.{IsWellFormed};
ghost use Rattle.tree_export.specs.Exported.{item_of, items_in};
ghost use Rattle.tree_export.specs.Stopping.{wanted_of};
ghost use Rattle.tree_export.specs.Texts.{skipped_text, done_text};
ghost use Rattle.view_tree.specs.Trails.{IsOn};
ghost use Rattle.cmd_texts.specs.Commands.ExportParts.{told_text, IsOfNoRoot};
ghost use Rattle.cmd_texts.specs.Handed.{looked, stored};
ghost use Rattle.cmd_texts.specs.MeantView.{IsMeantView};
ghost use Rattle.cmd_texts.specs.Reached.{IsWhileLooking, IsFree};
ghost use Rattle.cmd_texts.specs.Ended.{HasEndedInto};
ghost use Rattle.cmd_texts.specs.Seen.{stopped_exporting, stopped_on};
ghost use Rattle.cmd_lines.specs.Words as asked;
ghost use Rattle.cmd_lines.specs.Written.{sunk};
ghost use Rattle.cmd_lines.specs.Putting.{IsPut};
ghost use Rattle.cmd_lines.specs.declared.stopped.Stopped.TheVariants.{ReadFailed};

use crate::commands::checked::check_first;
use crate::meant_view::{Viewed, reach_view};
use crate::on_path::stopped_on_path;
use crate::put::{Line, put_lines};
use blk_folder::Folder;
use blk_source::{BlockSource, Sink};
use cmd_lines::{Checks, Named, Stopped};
use cmd_words::Target;
use obj_base::{Site, Stop};
use path_walk::PathStop;
use std::alloc::{AllocError, Global};
use tree_export::{Done, ExportFault, ExportStop, Item, export, item_at, safe_path};
use view_rules::Profile;
use view_tree::{KeptRows, Trail, kind_letter, tree_rows};
use vol_view::View;

// A line: an item for which nothing was put, or how much was.
#[derive(Drop)]
enum Told {
    Skipped(Item),
    Done {
        directories: u64,
        files: u64,
        bytes: u64,
    },
}

// The line of an item for which nothing was put: its kind, and its path as a folder would have it.
fn skipped_line(alloc: Global, item: &Item) -> Result<String, AllocError>
    ensures { IfOk result (λ line. string_bytes line ≡ skipped_text (wanted_of item.now)) }
{
    let kind = kind_letter(item.kind);
    let path = safe_path(alloc, &item.path)?;
    format!(in alloc; "skipped {kind} {path}\n")
}

// The line of how much was put.
fn done_line(alloc: Global, directories: u64, files: u64, bytes: u64) -> Result<String, AllocError>
    ensures { IfOk result (λ line. string_bytes line ≡ done_text directories files bytes) }
{
    format!(in alloc; "exported {directories} directories {files} files {bytes} bytes\n")
}

/// The kind and the path of an item for which nothing was put, or how much was.
impl Line for Told {
    ghost text = { λ told. told_text told };

    fn line(&self, alloc: Global) -> Result<Vec<u8>, AllocError> {
        let line = match self {
            Told::Skipped(item) => skipped_line(alloc, item)?,
            Told::Done {
                directories,
                files,
                bytes,
            } => done_line(alloc, *directories, *files, *bytes)?,
        };
        Ok(line.into_bytes())
    }
}

// Adds the line of the item at a place.
fn push_skipped(
    alloc: Global,
    rows: &KeptRows,
    place: usize,
    trail: &mut Trail,
    told: &mut Vec<Told>,
) -> Result<(), AllocError>
    requires low { place < length rows.now }
    requires on { IsOn rows.now trail.old }
    ensures on { OnOk result (IsOn rows.now trail.new) }
    ensures line { OnOk result (flat_map told_text told.new.items ≡ flat_map told_text told.old.items ++ flat_map skipped_text (cons_option (slice_get (map item_of rows.now) place) [])) }
{
    let item = item_at(alloc, rows, place, trail)?;
    told.push(Told::Skipped(item))?;
    Ok(())
}

// The items at some places, each as a line.
fn skipped_in(alloc: Global, rows: &KeptRows, places: &[usize]) -> Result<Vec<Told>, AllocError>
    requires { All (λ place. place < length rows.now) places.now }
    ensures { IfOk result (λ told. flat_map told_text told.items ≡ flat_map skipped_text (filter_map (slice_get (map item_of rows.now)) places.now)) }
{
    let mut told = Vec::new(alloc);
    let mut trail = Trail::new(alloc);
    'places: for place in places {
        push_skipped(alloc, rows, *place, &mut trail, &mut told)?;
    }
    Ok(told)
}

// A line for each item for which nothing was put, and one of how much was.
fn told_of(alloc: Global, rows: &KeptRows, done: &Done) -> Result<Vec<Told>, AllocError>
    requires { All (λ place. place < length rows.now) done.now.skipped.items }
    ensures { IfOk result (λ told. flat_map told_text told.items ≡ flat_map skipped_text (filter_map (slice_get (map item_of rows.now)) done.now.skipped.items) ++ done_text done.now.directories done.now.files done.now.bytes) }
{
    let mut told = skipped_in(alloc, rows, done.skipped.as_slice())?;
    told.push(Told::Done {
        directories: done.directories,
        files: done.files,
        bytes: done.bytes,
    })?;
    Ok(told)
}

// Puts all lines.
fn put_done<W: Sink>(
    alloc: Global,
    rows: &KeptRows,
    done: &Done,
    out: &mut W,
) -> Result<(), Stopped>
    requires { All (λ place. place < length rows.now) done.now.skipped.items }
    ensures { IsPut (flat_map skipped_text (filter_map (slice_get (map item_of rows.now)) done.now.skipped.items) ++ done_text done.now.directories done.now.files done.now.bytes) result (sunk W.contents W.faults out.old out.new) }
{
    let told = told_of(alloc, rows, done)?;
    put_lines(alloc, told.as_slice(), out)
}

// The rows where there is no tree: none where the view has no root, otherwise why the run stops.
fn rows_without(alloc: Global, stop: Stop<PathStop>) -> Result<KeptRows, Stopped>
    ensures none { IfOk result (λ rows. (rows ≡ []) × IsOfNoRoot stop) }
    ensures stopped { IfErr result (λ stopped. (stopped ≡ stopped_on stop) × IsNoAnswer stop) }
{
    match stop {
        Stop::Found(PathStop::Answer(_)) => Ok(KeptRows::none(alloc)),
        Stop::Found(PathStop::Fault(fault)) => {
            Err(stopped_on_path(Stop::Found(PathStop::Fault(fault))))
        }
        Stop::Unsupported { feature, block } => Err(Stopped::Refused { feature, block }),
        Stop::ReadFault => Err(Stopped::ReadFailed),
        Stop::NoMemory => Err(Stopped::OutOfMemory),
    }
}

// The rows of the tree of a view's root.
fn rows_at<S: BlockSource>(
    alloc: Global,
    src: &mut S,
    viewed: &Viewed,
    site: &Site,
) -> Result<KeptRows, Stopped>
    requires site { IsSiteFor site.now (S.bytes_len src.old) }
    ensures found { (image : List ℕ) → S.bytes src.old ≡ Some image → IsLawful image site.now viewed.now.volume viewed.now.view → IfOk result (λ rows. map item_of rows ≡ items_in (view_facts image site.now viewed.now.volume viewed.now.view)) }
    ensures free { (image : List ℕ) → S.bytes src.old ≡ Some image → IsLawful image site.now viewed.now.volume viewed.now.view → IfErr result IsFree }
    ensures looking { IfErr result IsWhileLooking }
    ensures cause { IsErrOf result ReadFailed → Rose (S.faults src.old) (S.faults src.new) }
    ensures kept { IsKept S.bytes S.bytes_len S.faults src.old src.new }
{
    match tree_rows(alloc, src, &viewed.volume, &viewed.view, site, "/") {
        Ok(rows) => Ok(rows),
        Err(stop) => rows_without(alloc, stop),
    }
}

// Why the run stops, where a view can't be put into a folder.
fn stopped_in(view: &View, stop: ExportStop) -> Stopped
    ensures { result ≡ stopped_exporting view.now.slot view.now.xid stop }
{
    let slot = view.slot;
    let xid = view.xid;
    match stop {
        ExportStop::Stopped(
            Stop::Found(
                ExportFault::Stream { id, .. }
                | ExportFault::Walk { id, .. }
                | ExportFault::Value { id, .. }
                | ExportFault::NoInode { id },
            ),
        ) => Stopped::Faulty(Named::InExport { slot, xid, id }),
        ExportStop::Stopped(Stop::Unsupported { feature, block }) => {
            Stopped::Refused { feature, block }
        }
        ExportStop::Stopped(Stop::ReadFault) => Stopped::ReadFailed,
        ExportStop::Stopped(Stop::NoMemory) => Stopped::OutOfMemory,
        ExportStop::WriteFault => Stopped::WriteFailed,
    }
}

// Puts the items of the view that is meant into a folder, and writes which weren't put and how much was.
fn write_rows<S: BlockSource, W: Sink, F: Folder>(
    alloc: Global,
    target: Target<'_>,
    src: &mut S,
    viewed: &Viewed,
    site: &Site,
    rows: &KeptRows,
    out: &mut W,
    folder: &mut F,
) -> Result<(), Stopped>
    requires site { IsSiteFor site.now (S.bytes_len src.old) }
    requires site_is { site.now ≡ site_of viewed.now.checkpoint }
    requires clean { (image : List ℕ) → S.bytes src.old ≡ Some image → IsWellFormed Plain image }
    requires meant { (image : List ℕ) → S.bytes src.old ≡ Some image → IsMeantView image (target_asked target) viewed.now.checkpoint viewed.now.volume viewed.now.view }
    requires items { (image : List ℕ) → S.bytes src.old ≡ Some image → map item_of rows.now ≡ items_in (view_facts image site.now viewed.now.volume viewed.now.view) }
    ensures answer { HasEndedInto (asked.Export (target_asked target.entry)) (looked S.bytes S.faults src.old src.new) (stored F.contents F.faults folder.old folder.new) result (sunk W.contents W.faults out.old out.new) }
    ensures kept { IsKept S.bytes S.bytes_len S.faults src.old src.new }
{
    match export(alloc, src, &viewed.volume, &viewed.view, site, rows, folder) {
        Ok(done) => put_done(alloc, rows, &done, out),
        Err(stop) => Err(stopped_in(&viewed.view, stop)),
    }
}

// Puts what the view that is meant has into a folder, and writes which items weren't put and how much was.
fn write_view<S: BlockSource, W: Sink, F: Folder>(
    alloc: Global,
    target: Target<'_>,
    src: &mut S,
    viewed: &Viewed,
    out: &mut W,
    folder: &mut F,
) -> Result<(), Stopped>
    requires site { IsSiteFor (site_of viewed.now.checkpoint) (S.bytes_len src.old) }
    requires clean { (image : List ℕ) → S.bytes src.old ≡ Some image → IsWellFormed Plain image }
    requires meant { (image : List ℕ) → S.bytes src.old ≡ Some image → IsMeantView image (target_asked target) viewed.now.checkpoint viewed.now.volume viewed.now.view }
    ensures answer { HasEndedInto (asked.Export (target_asked target.entry)) (looked S.bytes S.faults src.old src.new) (stored F.contents F.faults folder.old folder.new) result (sunk W.contents W.faults out.old out.new) }
    ensures kept { IsKept S.bytes S.bytes_len S.faults src.old src.new }
{
    let site = viewed.checkpoint.site();
    let rows = match rows_at(alloc, src, viewed, &site) {
        Ok(rows) => rows,
        Err(stopped) => return Err(stopped),
    };
    write_rows(alloc, target, src, viewed, &site, &rows, out, folder)
}

// Puts the view that is meant into a folder, in a container that is well-formed.
fn write_checked<S: BlockSource, W: Sink, F: Folder>(
    alloc: Global,
    target: Target<'_>,
    src: &mut S,
    out: &mut W,
    folder: &mut F,
) -> Result<(), Stopped>
    requires clean { (image : List ℕ) → S.bytes src.old ≡ Some image → IsWellFormed Plain image }
    ensures answer { HasEndedInto (asked.Export (target_asked target.entry)) (looked S.bytes S.faults src.old src.new) (stored F.contents F.faults folder.old folder.new) result (sunk W.contents W.faults out.old out.new) }
    ensures kept { IsKept S.bytes S.bytes_len S.faults src.old src.new }
{
    match reach_view(alloc, src, target) {
        Ok(viewed) => write_view(alloc, target, src, &viewed, out, folder),
        Err(stopped) => Err(stopped),
    }
}

/// Checks the container, puts what the view that is meant has into a folder, and writes which items weren't put and how much was.
pub fn write<S: BlockSource, W: Sink, F: Folder>(
    alloc: Global,
    target: Target<'_>,
    src: &mut S,
    out: &mut W,
    folder: &mut F,
) -> Result<(), Stopped>
    ensures answer { HasEndedInto (asked.Export (target_asked target.entry)) (looked S.bytes S.faults src.old src.new) (stored F.contents F.faults folder.old folder.new) result (sunk W.contents W.faults out.old out.new) }
    ensures kept { IsKept S.bytes S.bytes_len S.faults src.old src.new }
{
    match check_first(alloc, Checks::First(Profile::Plain), src) {
        Ok(()) => write_checked(alloc, target, src, out, folder),
        Err(stopped) => Err(stopped),
    }
}
