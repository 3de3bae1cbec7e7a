// The contents of files (Data Streams).
ghost use Rattle.std.specs.Prelude.{◌≡◌, ◌≤◌, ℕ, List, Some, None, Ok, Err, true, IfOk, IfErr, IfSome, IsErrOf, MatchOption};
ghost use Rattle.apfs_model.specs.Counts.{Rose};
ghost use Rattle.apfs_model.specs.Kept.{IsKept};
ghost use Rattle.obj_base.specs.declared.stop.Stop.TheVariants.{ReadFault};
ghost use Rattle.obj_base.specs.Site.{IsSiteFor};
ghost use Rattle.view_rules.specs.Rules.{view_facts};
ghost use Rattle.vol_view.specs.Views.{is_view_ordered};
ghost use Rattle.path_search.specs.Parts.{WhereTold};
ghost use Rattle.path_read.specs.Needs.{ContentsNeed, WhereWritten};
ghost use Rattle.path_read.specs.Contents as spec;
ghost use Rattle.path_search.specs.Stops.{IsLawful};
ghost use Rattle.path_search.specs.Calls.{IsGiven, IsStopThere};
ghost use Rattle.path_read.specs.Written.{HasPart, IsWritten, IsUntouched, IsWriteStopThere, opened_bytes};
ghost use Rattle.path_read.specs.declared.stop.WriteStop.TheVariants as writes;

use crate::WriteStop;
use crate::streams::open_stream;
use blk_source::{BlockSource, Sink};
use file_extent::{CopyFault, Stream};
use obj_base::{Site, Stop};
use path_walk::{Answer, KeptInode, PathStop, locate};
use std::alloc::Global;
use vol_view::{View, Volume};

// The kind of a regular file (File Modes, S_IFREG).
const REGULAR: u16 = 8;

// The flag of a file whose contents are compressed (BSD flags, UF_COMPRESSED).
const COMPRESSED: u32 = 0x20;

// The flag of a file whose contents aren't there (BSD flags, SF_DATALESS).
const DATALESS: u32 = 0x4000_0000;

/// Why the contents of an inode aren't given, if they aren't: those of a regular file that is neither compressed nor dataless are.
#[tactic(auto, unfolding(crate::specs::Contents::readable))]
pub fn withheld(inode: &KeptInode) -> Option<Answer>
    ensures { MatchOption result (spec.readable inode.now ≡ Ok inode.now) (λ answer. spec.readable inode.now ≡ Err answer) }
{
    if inode.kind() != REGULAR {
        return Some(Answer::NotFile);
    }
    if inode.bsd_flags() & COMPRESSED == COMPRESSED {
        return Some(Answer::Compressed);
    }
    if inode.bsd_flags() & DATALESS == DATALESS {
        return Some(Answer::Dataless);
    }
    None
}

// The stream of the file that a path leads to; None where it has none.
fn open<S: BlockSource>(
    alloc: Global,
    src: &mut S,
    volume: &Volume,
    view: &View,
    site: &Site,
    path: &str,
) -> Result<Option<Stream>, Stop<PathStop>>
    requires site { IsSiteFor site.now (S.bytes_len src.old) }
    ensures exact { (image : List ℕ) → S.bytes src.old ≡ Some image → IsLawful image site.now volume.now view.now → IsGiven (opened_bytes image) (spec.contents site.now.block_size image (view_facts image site.now volume.now view.now) path.now) result }
    ensures needs { (image : List ℕ) → S.bytes src.old ≡ Some image → is_view_ordered image site.now volume.now view.now ≡ true → WhereTold (ContentsNeed image site.now volume.now view.now path.now) result }
    ensures same { IfOk result (λ file. IfSome file (λ stream. stream.site ≡ site.now)) }
    ensures present { (image : List ℕ) → S.bytes src.old ≡ Some image → IfErr result (IsStopThere image site.now volume.now view.now) }
    ensures cause { IsErrOf result ReadFault → Rose (S.faults src.old) (S.faults src.new) }
    ensures kept { IsKept S.bytes S.bytes_len S.faults src.old src.new }
{
    let place = match locate(alloc, src, volume, view, site, path) {
        Ok(place) => place,
        Err(stop) => return Err(stop),
    };
    let inode = place.inode();
    match withheld(inode) {
        Some(answer) => return Err(Stop::Found(PathStop::Answer(answer))),
        None => (),
    }
    let size = match inode.stream() {
        Some(stream) => stream.size,
        None => return Ok(None),
    };
    match open_stream(alloc, src, volume, view, site, inode.private_id(), size) {
        Ok(stream) => Ok(Some(stream)),
        Err(stop) => Err(stop),
    }
}

/// Writes the contents of the file that a path leads to: the stream of its inode's private id, nothing where it has none.
/// `NotFile` comes where it is no regular file, then `Compressed` and `Dataless` by its BSD flags. Takes all its memory
/// before its first put. After an error of a read or a put the sink has a front of the contents, and after any other what it
/// had.
pub fn cat<S: BlockSource, W: Sink>(
    alloc: Global,
    src: &mut S,
    volume: &Volume,
    view: &View,
    site: &Site,
    path: &str,
    out: &mut W,
) -> Result<(), WriteStop>
    requires site { IsSiteFor site.now (S.bytes_len src.old) }
    ensures exact { (image : List ℕ) → S.bytes src.old ≡ Some image → IsLawful image site.now volume.now view.now → IsWritten (W.contents out.old) (W.contents out.new) (spec.contents site.now.block_size image (view_facts image site.now volume.now view.now) path.now) result }
    ensures rests { (image : List ℕ) → S.bytes src.old ≡ Some image → is_view_ordered image site.now volume.now view.now ≡ true → WhereWritten (ContentsNeed image site.now volume.now view.now path.now) result }
    ensures text { HasPart (W.contents out.old) (W.contents out.new) (S.bytes src.old) (λ image. IsLawful image site.now volume.now view.now) (λ image. spec.contents site.now.block_size image (view_facts image site.now volume.now view.now) path.now) result }
    ensures untouched { IfErr result (IsUntouched (W.contents out.old) (W.contents out.new)) }
    ensures present { (image : List ℕ) → S.bytes src.old ≡ Some image → IfErr result (IsWriteStopThere image site.now volume.now view.now) }
    ensures read_cause { result ≡ Err (writes.Stopped ReadFault) → Rose (S.faults src.old) (S.faults src.new) }
    ensures write_cause { result ≡ Err writes.WriteFault → Rose (W.faults out.old) (W.faults out.new) }
    ensures kept { IsKept S.bytes S.bytes_len S.faults src.old src.new }
    ensures later { W.faults out.old ≤ W.faults out.new }
{
    let stream = match open(alloc, src, volume, view, site, path) {
        Ok(Some(stream)) => stream,
        Ok(None) => return Ok(()),
        Err(stop) => return Err(WriteStop::Stopped(stop)),
    };
    match stream.copy_to(src, out) {
        Ok(()) => Ok(()),
        Err(CopyFault::ReadFault) => Err(WriteStop::Stopped(Stop::ReadFault)),
        Err(CopyFault::WriteFault) => Err(WriteStop::WriteFault),
    }
}
