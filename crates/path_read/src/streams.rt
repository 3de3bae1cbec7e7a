// Opening a stream, and why that stops, said of a path.
ghost use Rattle.std.specs.Prelude.{◌≡◌, ℕ, List, Some, true, IfOk, IfErr, IsErrOf};
ghost use Rattle.apfs_model.specs.Counts.{Rose};
ghost use Rattle.apfs_model.specs.Kept.{IsKept};
ghost use Rattle.obj_base.specs.declared.stop.Stop.TheVariants.{ReadFault};
ghost use Rattle.obj_base.specs.Site.{IsSiteFor};
ghost use Rattle.vol_view.specs.Views.{is_view_ordered};
ghost use Rattle.file_extent.specs.Opening.{IsOpened};
ghost use Rattle.path_search.specs.Calls.{IsStopThere, IsNoAnswer};
ghost use Rattle.path_read.specs.Streamed.{id_at, stream_raised};

use crate::refused::refused;
use blk_source::BlockSource;
use file_extent::{Stream, StreamStop};
use obj_base::{Site, Stop};
use path_walk::PathStop;
use std::alloc::Global;
use view_facts::fault_of;
use view_rules::{IdAt, TreeFault};
use vol_view::{View, Volume};

// The place of a fault of an id.
fn at(view: &View, id: u64) -> IdAt
    ensures { result ≡ id_at view.now id }
{
    IdAt {
        slot: view.slot,
        xid: view.xid,
        id,
    }
}

// Why a stream of an id can't be opened; None where a record is refused.
fn raise(view: &View, id: u64, stop: Stop<StreamStop>) -> Option<Stop<PathStop>>
    ensures { result ≡ stream_raised view.now id stop }
{
    match stop {
        Stop::Found(StreamStop::Walk { root: _, why }) => Some(Stop::Found(PathStop::Fault(fault_of(
            view, why,
        )))),
        Stop::Found(StreamStop::Extent { why: _ }) => None,
        Stop::Found(StreamStop::Order) => Some(Stop::Found(PathStop::Fault(TreeFault::ExtentOrder(
            at(view, id),
        )))),
        Stop::Found(StreamStop::Outside) => Some(Stop::Found(PathStop::Fault(TreeFault::ExtentPlace(
            at(view, id),
        )))),
        Stop::Unsupported { feature, block } => Some(Stop::Unsupported { feature, block }),
        Stop::ReadFault => Some(Stop::ReadFault),
        Stop::NoMemory => Some(Stop::NoMemory),
    }
}

/// Opens the stream of an id, with a size in bytes. Where a record of an extent is refused the whole tree is gone through,
/// for the number of its item.
pub(crate) fn open_stream<S: BlockSource>(
    alloc: Global,
    src: &mut S,
    volume: &Volume,
    view: &View,
    site: &Site,
    id: u64,
    size: u64,
) -> Result<Stream, Stop<PathStop>>
    requires site { IsSiteFor site.now (S.bytes_len src.old) }
    ensures opened { (image : List ℕ) → S.bytes src.old ≡ Some image → is_view_ordered image site.now volume.now view.now ≡ true → IfOk result (IsOpened image site.now volume.now view.now id size) }
    ensures same { IfOk result (λ stream. stream.site ≡ site.now) }
    ensures present { (image : List ℕ) → S.bytes src.old ≡ Some image → IfErr result (IsStopThere image site.now volume.now view.now) }
    ensures unanswered { IfErr result IsNoAnswer }
    ensures cause { IsErrOf result ReadFault → Rose (S.faults src.old) (S.faults src.new) }
    ensures kept { IsKept S.bytes S.bytes_len S.faults src.old src.new }
{
    let stop = match Stream::start(alloc, src, volume, view, id, size, site) {
        Ok(stream) => return Ok(stream),
        Err(stop) => stop,
    };
    match raise(view, id, stop) {
        Some(stop) => Err(stop),
        None => Err(refused(alloc, src, volume, view, site)),
    }
}
