// What an attribute of a name holds.
ghost use Rattle.std.specs.Prelude.{◌≡◌, ◌≤◌, ℕ, List, Some, Err, Ok, true, option_map, IfErr};
ghost use Rattle.std.specs.List.{find};
ghost use Rattle.apfs_model.specs.Counts.{Rose};
ghost use Rattle.apfs_model.specs.Kept.{IsKept};
ghost use Rattle.obj_base.specs.declared.stop.Stop.TheVariants.{ReadFault};
ghost use Rattle.obj_base.specs.Site.{IsSiteFor};
ghost use Rattle.view_rules.specs.Rules.{view_facts};
ghost use Rattle.path_search.specs.Stops.{IsLawful};
ghost use Rattle.bt_keys.specs.RecordKey.{file_extent_record};
ghost use Rattle.vol_view.specs.Views.{is_view_ordered};
ghost use Rattle.vol_view.specs.Placed.{has_all_records};
ghost use Rattle.path_read.specs.Needs.{HasExtents, ValueNeed, WhereWritten};
ghost use Rattle.path_read.specs.Attributes as spec;
ghost use Rattle.path_read.specs.Attributes.{is_called};
ghost use Rattle.path_read.specs.Contents.{stream_in, body_in};
ghost use Rattle.path_read.specs.Parts.{body_of};
ghost use Rattle.path_read.specs.Written.{HasPart, IsWritten, IsUntouched, IsWriteStopThere};
ghost use Rattle.path_read.specs.declared.stop.WriteStop.TheVariants as writes;

use crate::WriteStop;
use crate::attributes::gathered;
use crate::kept::{KeptAttribute, KeptBody};
use crate::streams::open_stream;
use blk_source::{BlockSource, Sink};
use file_extent::CopyFault;
use obj_base::{Site, Stop};
use path_walk::{Answer, PathStop};
use std::alloc::Global;
use vol_view::{View, Volume};

// The first of some attributes that has a name.
fn named<'a>(attributes: &'a [KeptAttribute], name: &str) -> Option<&'a KeptAttribute>
    ensures { option_map (λ a. a.now) result ≡ find (is_called name.now) attributes.now }
{
    for attribute in attributes {
        if attribute.is_called(name) {
            return Some(attribute);
        }
    }
    None
}

// Writes the stream of an id, with a size in bytes.
fn write_stream<S: BlockSource, W: Sink>(
    alloc: Global,
    src: &mut S,
    volume: &Volume,
    view: &View,
    site: &Site,
    id: u64,
    size: u64,
    out: &mut W,
) -> Result<(), WriteStop>
    requires site { IsSiteFor site.now (S.bytes_len src.old) }
    ensures exact { (image : List ℕ) → S.bytes src.old ≡ Some image → IsLawful image site.now volume.now view.now → IsWritten (W.contents out.old) (W.contents out.new) (Ok (stream_in site.now.block_size image (view_facts image site.now volume.now view.now) id size)) result }
    ensures rests { (image : List ℕ) → S.bytes src.old ≡ Some image → is_view_ordered image site.now volume.now view.now ≡ true → WhereWritten (has_all_records image site.now volume.now view.now id file_extent_record ≡ true) result }
    ensures text { HasPart (W.contents out.old) (W.contents out.new) (S.bytes src.old) (λ image. IsLawful image site.now volume.now view.now) (λ image. Ok (stream_in site.now.block_size image (view_facts image site.now volume.now view.now) id size)) result }
    ensures untouched { IfErr result (IsUntouched (W.contents out.old) (W.contents out.new)) }
    ensures present { (image : List ℕ) → S.bytes src.old ≡ Some image → IfErr result (IsWriteStopThere image site.now volume.now view.now) }
    ensures read_cause { result ≡ Err (writes.Stopped ReadFault) → Rose (S.faults src.old) (S.faults src.new) }
    ensures write_cause { result ≡ Err writes.WriteFault → Rose (W.faults out.old) (W.faults out.new) }
    ensures kept { IsKept S.bytes S.bytes_len S.faults src.old src.new }
    ensures later { W.faults out.old ≤ W.faults out.new }
{
    let stream = match open_stream(alloc, src, volume, view, site, id, size) {
        Ok(stream) => stream,
        Err(stop) => return Err(WriteStop::Stopped(stop)),
    };
    match stream.copy_to(src, out) {
        Ok(()) => Ok(()),
        Err(CopyFault::ReadFault) => Err(WriteStop::Stopped(Stop::ReadFault)),
        Err(CopyFault::WriteFault) => Err(WriteStop::WriteFault),
    }
}

// Writes what an attribute holds.
fn write_body<S: BlockSource, W: Sink>(
    alloc: Global,
    src: &mut S,
    volume: &Volume,
    view: &View,
    site: &Site,
    body: &KeptBody,
    out: &mut W,
) -> Result<(), WriteStop>
    requires site { IsSiteFor site.now (S.bytes_len src.old) }
    ensures exact { (image : List ℕ) → S.bytes src.old ≡ Some image → IsLawful image site.now volume.now view.now → IsWritten (W.contents out.old) (W.contents out.new) (Ok (body_in site.now.block_size image (view_facts image site.now volume.now view.now) (body_of body.now))) result }
    ensures rests { (image : List ℕ) → S.bytes src.old ≡ Some image → is_view_ordered image site.now volume.now view.now ≡ true → WhereWritten (HasExtents image site.now volume.now view.now (body_of body.now)) result }
    ensures text { HasPart (W.contents out.old) (W.contents out.new) (S.bytes src.old) (λ image. IsLawful image site.now volume.now view.now) (λ image. Ok (body_in site.now.block_size image (view_facts image site.now volume.now view.now) (body_of body.now))) result }
    ensures untouched { IfErr result (IsUntouched (W.contents out.old) (W.contents out.new)) }
    ensures present { (image : List ℕ) → S.bytes src.old ≡ Some image → IfErr result (IsWriteStopThere image site.now volume.now view.now) }
    ensures read_cause { result ≡ Err (writes.Stopped ReadFault) → Rose (S.faults src.old) (S.faults src.new) }
    ensures write_cause { result ≡ Err writes.WriteFault → Rose (W.faults out.old) (W.faults out.new) }
    ensures kept { IsKept S.bytes S.bytes_len S.faults src.old src.new }
    ensures later { W.faults out.old ≤ W.faults out.new }
{
    match body {
        KeptBody::Embedded(bytes) => match out.put(bytes.as_slice()) {
            Ok(()) => Ok(()),
            Err(_) => Err(WriteStop::WriteFault),
        },
        KeptBody::Stream { id, size } => {
            write_stream(alloc, src, volume, view, site, *id, *size, out)
        }
    }
}

/// Writes what an attribute of what a path leads to holds (Extended Attributes): of the attribute whose name has the same bytes, the contents that stand in
/// its record, or its stream. `NoAttribute` comes where there is none of this name. Takes all its memory before its first put. After an error of a read or
/// a put the sink has a front of the bytes, and after any other what it had.
pub fn attr<S: BlockSource, W: Sink>(
    alloc: Global,
    src: &mut S,
    volume: &Volume,
    view: &View,
    site: &Site,
    path: &str,
    name: &str,
    out: &mut W,
) -> Result<(), WriteStop>
    requires site { IsSiteFor site.now (S.bytes_len src.old) }
    ensures exact { (image : List ℕ) → S.bytes src.old ≡ Some image → IsLawful image site.now volume.now view.now → IsWritten (W.contents out.old) (W.contents out.new) (spec.attribute site.now.block_size image (view_facts image site.now volume.now view.now) path.now name.now) result }
    ensures rests { (image : List ℕ) → S.bytes src.old ≡ Some image → is_view_ordered image site.now volume.now view.now ≡ true → WhereWritten (ValueNeed image site.now volume.now view.now path.now name.now) result }
    ensures text { HasPart (W.contents out.old) (W.contents out.new) (S.bytes src.old) (λ image. IsLawful image site.now volume.now view.now) (λ image. spec.attribute site.now.block_size image (view_facts image site.now volume.now view.now) path.now name.now) result }
    ensures untouched { IfErr result (IsUntouched (W.contents out.old) (W.contents out.new)) }
    ensures present { (image : List ℕ) → S.bytes src.old ≡ Some image → IfErr result (IsWriteStopThere image site.now volume.now view.now) }
    ensures read_cause { result ≡ Err (writes.Stopped ReadFault) → Rose (S.faults src.old) (S.faults src.new) }
    ensures write_cause { result ≡ Err writes.WriteFault → Rose (W.faults out.old) (W.faults out.new) }
    ensures kept { IsKept S.bytes S.bytes_len S.faults src.old src.new }
    ensures later { W.faults out.old ≤ W.faults out.new }
{
    let attributes = match gathered(alloc, src, volume, view, site, path) {
        Ok(attributes) => attributes,
        Err(stop) => return Err(WriteStop::Stopped(stop)),
    };
    let attribute = match named(&attributes, name) {
        Some(attribute) => attribute,
        None => return Err(WriteStop::Stopped(Stop::Found(PathStop::Answer(Answer::NoAttribute)))),
    };
    match write_body(alloc, src, volume, view, site, &attribute.body, out) {
        Ok(()) => Ok(()),
        Err(stop) => Err(stop),
    }
}
