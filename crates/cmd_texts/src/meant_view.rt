// The view that is meant.
ghost use Rattle.std.specs.Prelude.{◌≡◌, ℕ, List, Some, IfOk, IfErr, IsErrOf, option_map};
ghost use Rattle.apfs_model.specs.Counts.{Rose};
ghost use Rattle.apfs_model.specs.Kept.{IsKept};
ghost use Rattle.obj_base.specs.Site.{IsSiteFor};
ghost use Rattle.nx_ring.specs.Checkpoint.{site_of};
ghost use Rattle.cmd_words.specs.Lent.{target_asked};
ghost use Rattle.cmd_texts.specs.MeantView.{view_of, IsMeantView};
ghost use Rattle.cmd_texts.specs.Reached.{TellsViewWay, IsWhileLooking};
ghost use Rattle.cmd_lines.specs.declared.stopped.Stopped.TheVariants.{ReadFailed};

use crate::meant::{Reached, reach};
use blk_source::BlockSource;
use cmd_lines::Stopped;
use cmd_words::Target;
use nx_ring::Checkpoint;
use path_walk::Answer;
use std::alloc::Global;
use vol_view::{View, Volume, by_name, live, past};

/// The newest checkpoint, and the volume and the view that are meant.
#[derive(Drop)]
pub struct Viewed {
    pub checkpoint: Checkpoint,
    pub volume: Volume,
    pub view: View,
}

// The view that is meant of a volume, where a snapshot of the name that is named is there.
fn view_in(volume: &Volume, checkpoint: &Checkpoint, snapshot: Option<&str>) -> Option<View>
    ensures { result ≡ view_of volume.now checkpoint.now (option_map (λ name. name.now) snapshot.entry) }
{
    let Some(name) = snapshot else {
        return Some(live(volume, checkpoint));
    };
    match by_name(volume, name.as_bytes()) {
        Some(i) => Some(past(volume, i)),
        None => None,
    }
}

/// The newest checkpoint, the volume that is meant, and its live view or that of the snapshot that is named.
pub fn reach_view<S: BlockSource>(
    alloc: Global,
    src: &mut S,
    target: Target<'_>,
) -> Result<Viewed, Stopped>
    ensures clear { (image : List ℕ) → S.bytes src.old ≡ Some image → IfOk result (λ viewed. IsMeantView image (target_asked target.entry) viewed.checkpoint viewed.volume viewed.view) }
    ensures way { (image : List ℕ) → S.bytes src.old ≡ Some image → IfErr result (TellsViewWay image (target_asked target.entry)) }
    ensures looking { IfErr result IsWhileLooking }
    ensures site { IfOk result (λ viewed. IsSiteFor (site_of viewed.checkpoint) (S.bytes_len src.old)) }
    ensures cause { IsErrOf result ReadFailed → Rose (S.faults src.old) (S.faults src.new) }
    ensures kept { IsKept S.bytes S.bytes_len S.faults src.old src.new }
{
    let Reached { checkpoint, volume } = match reach(alloc, src, target.volume) {
        Ok(reached) => reached,
        Err(stopped) => return Err(stopped),
    };
    match view_in(&volume, &checkpoint, target.snapshot) {
        Some(view) => Ok(Viewed {
            checkpoint,
            volume,
            view,
        }),
        None => Err(Stopped::Answered(Answer::NoSnapshot)),
    }
}
