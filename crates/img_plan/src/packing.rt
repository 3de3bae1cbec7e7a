// Items packed into leaves.
ghost use Rattle.std.specs.Prelude.{◌≡◌, ◌+◌, ◌-◌, ◌^◌, [], ◌∷◌, ◌++◌, IfOk, OnOk, List, min, vec_len};
ghost use Rattle.img_plan.specs.Packing.{IsPacked, Pair, bytes_of};
ghost use Rattle.img_plan.specs.Packing as spec;

use crate::plan::{Leaf, MOST_OF_A_LEAF};
use crate::records::{Item, node_bytes};
use std::alloc::{AllocError, Global};
use std::mem;

// The id of a leaf in its place: all are 0 where the first one is, otherwise they rise.
fn id_at(first: u64, place: usize) -> u64
    ensures { result ≡ spec.id_at first place }
{
    if first == 0 {
        0
    } else {
        first.saturating_add(place as u64)
    }
}

// Leaves while they are filled: those that are full, and the items of the next one, with the bytes that these take.
#[derive(Drop)]
struct Packing {
    first: u64,
    leaves: Vec<Leaf>,
    last: Vec<Item>,
    bytes: usize,
}

impl Packing {
    ghost use Rattle.img_plan.specs.Packing.{Closes, IsPacking};

    // What was gathered becomes a leaf.
    fn close(&mut self, alloc: Global) -> Result<(), AllocError>
        ensures { OnOk result (Closes self.old self.new) }
    {
        let items = mem::replace(&mut self.last, Vec::new(alloc));
        let oid = id_at(self.first, self.leaves.len());
        self.bytes = 0;
        self.leaves.push(Leaf { oid, items })?;
        Ok(())
    }

    // One item more: in the leaf that is filled where it has room, otherwise in the next one.
    fn add(&mut self, alloc: Global, item: Item) -> Result<(), AllocError>
        ensures first { OnOk result (self.new.first ≡ self.old.first) }
        ensures packing { OnOk result ((items : List Pair) → IsPacking items self.old → IsPacking (items ++ item ∷ []) self.new) }
    {
        let more = node_bytes(&item);
        if self.bytes.saturating_add(more) > MOST_OF_A_LEAF {
            self.close(alloc)?;
        }
        self.bytes = self.bytes.saturating_add(more);
        self.last.push(item)?;
        Ok(())
    }
}

/// The items in as few leaves as hold them, one after another, with rising ids. Where the first id is 0 they have none.
pub fn pack(alloc: Global, items: Vec<Item>, first: u64) -> Result<Vec<Leaf>, AllocError>
    ensures { IfOk result (λ leaves. IsPacked first items.items leaves.items) }
{
    let mut packing = Packing {
        first,
        leaves: Vec::new(alloc),
        last: Vec::new(alloc),
        bytes: 0,
    };
    'items: for item in items {
        packing.add(alloc, item)?;
    }
    if !packing.last.is_empty() {
        packing.close(alloc)?;
    }
    let Packing { leaves, .. } = packing;
    Ok(leaves)
}
