// The look-up of virtual objects.

use crate::Omap;
use bt_cursor::Namer;

/// The look-up of virtual objects through a map at a transaction, in a container of so many blocks.
#[derive(Drop)]
pub struct At<'a> {
    pub omap: &'a Omap,
    pub xid: u64,
    pub blocks: u64,
}

impl Namer for At<'_> {
    ghost use Rattle.omap_map.specs.Resolve.{named_by};

    ghost named = { λ at oid. named_by at.omap.now.records at.xid at.blocks oid };

    #[tactic(auto, unfolding(crate::specs::Resolve::named_by))]
    fn block(&self, oid: u64) -> Option<u64> {
        let place = self.omap.resolve(oid, self.xid)?;
        if 0 < place.block && place.block < self.blocks {
            Some(place.block)
        } else {
            None
        }
    }
}
