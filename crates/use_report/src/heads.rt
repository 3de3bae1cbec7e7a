// The views of a volume, as they are swept.
ghost use Rattle.std.specs.Prelude.{◌≡◌, ◌<◌, IfOk, IfErr};
ghost use Rattle.obj_base.specs.declared.stop.Stop.TheVariants.{NoMemory};
ghost use Rattle.use_report.specs.Heads as spec;
ghost use Rattle.use_report.specs.Heads.{AreHeadsOf};

use crate::UseFault;
use crate::kept::KeptView;
use obj_base::Stop;
use std::alloc::Global;
use view_sweep::{Head, SweptView};
use vol_view::Volume;

// A view, with what its superblock names.
fn head_of(volume: &Volume, kept: &KeptView) -> Head
    ensures { result ≡ spec.head_of volume.now kept.now }
{
    Head {
        view: SweptView {
            slot: volume.head.slot,
            place: kept.place,
            xid: kept.view.xid,
            map: volume.omap.block(),
            hashed: volume.names.are_hashed(),
            volume: 0,
        },
        root_oid: kept.view.root_oid,
        meta_ext: kept.meta_ext,
    }
}

// The view whose head has a place, of so many: the live view, which is the first, comes last.
fn kept_place(many: usize, head: usize) -> usize
    requires { head < many }
    ensures place { result ≡ spec.kept_place many head }
    ensures below { result < many }
{
    if head + 1 == many { 0 } else { head + 1 }
}

/// The views of a volume, the live view last.
pub(crate) fn heads_of(
    alloc: Global,
    volume: &Volume,
    views: &[KeptView],
) -> Result<Vec<Head>, Stop<UseFault>>
    ensures all { IfOk result (λ heads. AreHeadsOf volume.now views.now heads.items) }
    ensures memory_only { IfErr result (λ stop. stop ≡ NoMemory) }
{
    let mut heads = Vec::new(alloc);
    'views: for i in 0..views.len() {
        heads.push(head_of(volume, &views[kept_place(views.len(), i)]))?;
    }
    Ok(heads)
}
