// Sorting: what is asked by id, what is found and what is used by record.
ghost use Rattle.std.specs.List.Sorted.{IsPermutation, IsSortedBy};
ghost use Rattle.std.specs.Prelude.{◌≡◌, OnOk};
ghost use Rattle.view_sweep.specs.Order.{asked_rank, AreById, used_rank, is_hit_below, is_used_below};

use crate::used::{Hit, Used};
use crate::wanted::Asked;
use std::alloc::AllocError;
use std::cmp::Ordering;

// How one that is asked for stands to another: by the id, then by what is expected.
fn asked_rank(a: &Asked, b: &Asked) -> Ordering
    ensures { result ≡ asked_rank a.now b.now }
{
    a.wanted
        .oid
        .cmp(&b.wanted.oid)
        .then(a.wanted.number().cmp(&b.wanted.number()))
}

/// Puts what is asked under one id side by side, and of this what is expected alike. What is asked alike stays in its order, which is mostly that of the views.
pub(crate) fn by_id(asked: &mut Vec<Asked>) -> Result<(), AllocError>
    ensures order { OnOk result (IsPermutation asked.old.items asked.new.items) }
    ensures sorted { OnOk result (AreById asked.new.items) }
{
    asked.sort_by(asked_rank)?;
    Ok(())
}

/// Puts what is found by one record side by side.
pub(crate) fn by_record(hits: &mut Vec<Hit>)
    ensures order { IsPermutation hits.old.items hits.new.items }
    ensures sorted { IsSortedBy is_hit_below hits.new.items }
{
    hits.sort_unstable_by(|g, h| {
        g.wanted.view.map.cmp(&h.wanted.view.map).then(
            g.mapping.oid.cmp(&h.mapping.oid).then(
                g.mapping.xid.cmp(&h.mapping.xid).then(
                    g.mapping.paddr.cmp(&h.mapping.paddr).then(
                        g.mapping
                            .flags
                            .cmp(&h.mapping.flags)
                            .then(g.mapping.size.cmp(&h.mapping.size)),
                    ),
                ),
            ),
        )
    });
}

/// How a used record stands to another: by the map, then by all that a record says.
pub(crate) fn rank(a: &Used, b: &Used) -> Ordering
    ensures { result ≡ used_rank a.now b.now }
{
    a.map.cmp(&b.map).then(
        a.mapping.oid.cmp(&b.mapping.oid).then(
            a.mapping.xid.cmp(&b.mapping.xid).then(
                a.mapping.paddr.cmp(&b.mapping.paddr).then(
                    a.mapping
                        .flags
                        .cmp(&b.mapping.flags)
                        .then(a.mapping.size.cmp(&b.mapping.size)),
                ),
            ),
        ),
    )
}

/// Puts used records in their order.
pub(crate) fn by_use(used: &mut Vec<Used>)
    ensures order { IsPermutation used.old.items used.new.items }
    ensures sorted { IsSortedBy is_used_below used.new.items }
{
    used.sort_unstable_by(rank);
}
