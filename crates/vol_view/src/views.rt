// The views of a volume, and the snapshot of a name.
ghost use Rattle.std.specs.Prelude.{◌≡◌, ◌<◌, length, bytes_eq, slice_get, option_map, Some};
ghost use Rattle.vol_view.specs.Views.{live_of, past_of, by_name_of};

use crate::{Snapshot, View, Volume};
use nx_ring::Checkpoint;

/// The volume as it is: its virtual objects are looked up at the checkpoint's transaction.
pub fn live(volume: &Volume, cp: &Checkpoint) -> View
    ensures { result ≡ live_of volume.now cp.now }
{
    View {
        slot: volume.head.slot,
        xid: cp.xid(),
        root_oid: volume.root_oid,
    }
}

/// The volume as its snapshot `i`, counted from 0, keeps it: its virtual objects are looked up at the snapshot's
/// transaction.
pub fn past(volume: &Volume, i: usize) -> View
    requires { i < length volume.now.snaps }
    ensures { option_map (past_of volume.now) (slice_get volume.now.snaps i) ≡ Some result }
{
    let snapshot = &volume.snaps[i];
    View {
        slot: volume.head.slot,
        xid: snapshot.xid,
        root_oid: snapshot.root_oid,
    }
}

/// The place of the snapshot with these bytes as its name, among the volume's snapshots. None where there is none.
#[tactic(auto, unfolding(crate::specs::Views::by_name_of))]
pub fn by_name(volume: &Volume, name: &[u8]) -> Option<usize>
    ensures { result ≡ by_name_of volume.now name.now }
{
    volume
        .snaps
        .iter()
        .position(|snapshot: &Snapshot| snapshot.name.as_slice() == name)
}
