// Whether an id is named twice.
ghost use Rattle.std.specs.Prelude.{◌≡◌, ◌++◌, true, false, List, ℕ, filter, flat_map, option_to_list, OnOk, IfOk, IfErr, IsErrOf};
ghost use Rattle.std.specs.List.Sorted.{IsPermutation, IsNonDecreasingBy};
ghost use Rattle.apfs_model.specs.Lists.{In};
ghost use Rattle.obj_base.specs.Stops.{Tells};
ghost use Rattle.obj_base.specs.declared.stop.Stop.TheVariants.{ReadFault};
ghost use Rattle.reach_rules.specs.declared.naming.LookUp.TheVariants.{ByMapping, InContainer};
ghost use Rattle.reach_rules.specs.declared.naming.Naming.{Naming};
ghost use Rattle.reach_rules.specs.Live.{IsLive};
ghost use Rattle.reach_rules.specs.Faults as spec;
ghost use Rattle.reach_rules.specs.Features.{HasFeature};
ghost use Rattle.reach_rules.specs.Reached.{IsReachedFault};
ghost use Rattle.reach_gather.specs.ViewParts.{AreOnceAs};
ghost use Rattle.reach_gather.specs.Finished.{is_look, id_of, AreOnceHere};
ghost use Rattle.reach_gather.specs.Kept.{namings_in};

use crate::gathered::Gathered;
use crate::keeping::Noted;
use nx_ring::Checkpoint;
use obj_base::{Stop, Within};
use reach_rules::{LookUp, Naming, ReachFault};
use std::alloc::{AllocError, Global};

// Whether two look-ups are one.
pub(crate) fn is_look(how: LookUp, other: LookUp) -> bool
    ensures { result ≡ is_look how other }
{
    how == other
}

// The space of a look-up.
fn within_of(how: LookUp) -> Within
    ensures { result ≡ spec.within_of how }
{
    match how {
        LookUp::ByBlock => Within::Physical,
        LookUp::ByMapping => Within::Ephemeral,
        LookUp::InContainer => Within::Container,
        LookUp::InView(view) => Within::Volume(view.slot),
    }
}

// Adds a naming, where there is one that is looked up so.
fn add_that(naming: Option<Naming>, how: LookUp, out: &mut Vec<Naming>) -> Result<(), AllocError>
    ensures { OnOk result (out.new.items ≡ out.old.items ++ filter (λ (n : Naming). is_look n.how how) (option_to_list naming)) }
{
    let Some(naming) = naming else {
        return Ok(());
    };
    if is_look(naming.how, how) {
        out.push(naming)?;
    }
    Ok(())
}

// The namings that are looked up so.
fn those(alloc: Global, noted: &[Noted], how: LookUp) -> Result<Vec<Naming>, AllocError>
    ensures { IfOk result (λ v. v.items ≡ filter (λ (n : Naming). is_look n.how how) (flat_map namings_in noted.now)) }
{
    let mut out = Vec::new(alloc);
    for one in noted {
        add_that(one.naming(), how, &mut out)?;
    }
    Ok(out)
}

// Puts the namings of one id side by side.
fn by_id(namings: &mut Vec<Naming>)
    ensures order { IsPermutation namings.old.items namings.new.items }
    ensures sorted { IsNonDecreasingBy id_of namings.new.items }
{
    namings.sort_unstable_by_key(|naming| naming.oid);
}

// Whether two namings name one id.
fn is_clash(before: &Naming, naming: &Naming) -> bool
    ensures clash { result ≡ true → (before.now.oid ≡ naming.now.oid) × (before.now ≡ naming.now → ⊥) }
    ensures alike { result ≡ false → before.now.oid ≡ naming.now.oid → before.now ≡ naming.now }
{
    before.oid == naming.oid && before != naming
}

// The transaction of a look-up.
fn xid_of(how: LookUp, cp: &Checkpoint) -> u64
    ensures { result ≡ spec.xid_of cp.now how }
{
    match how {
        LookUp::ByBlock | LookUp::ByMapping | LookUp::InContainer => cp.xid(),
        LookUp::InView(view) => view.xid,
    }
}

// Whether no two namings that are looked up so, and stand by their ids, name one id.
fn beside(namings: &[Naming], how: LookUp, cp: &Checkpoint) -> Result<(), Stop<ReachFault>>
    requires sorted { IsNonDecreasingBy id_of namings.now }
    requires alike { (n : Naming) → In n namings.now → n.how ≡ how }
    requires each { spec.is_once how ≡ true }
    ensures once { OnOk result (AreOnceHere namings.now) }
    ensures present { (image : List ℕ) → ((n : Naming) → In n namings.now → IsLive image cp.now n) → IfErr result (Tells (IsReachedFault image cp.now) (HasFeature image cp.now)) }
    ensures no_read { IsErrOf result ReadFault → ⊥ }
{
    for i in 1..namings.len() {
        let before = namings[i - 1];
        let naming = namings[i];
        if is_clash(&before, &naming) {
            return Err(Stop::Found(ReachFault::NamedTwice {
                within: within_of(how),
                oid: naming.oid,
                xid: xid_of(how, cp),
            }));
        }
    }
    Ok(())
}

// Whether no two namings that are looked up so name one id.
fn once_as(
    alloc: Global,
    noted: &[Noted],
    how: LookUp,
    cp: &Checkpoint,
) -> Result<(), Stop<ReachFault>>
    requires each { spec.is_once how ≡ true }
    ensures once { OnOk result (AreOnceAs how (flat_map namings_in noted.now)) }
    ensures present { (image : List ℕ) → ((n : Naming) → In n (flat_map namings_in noted.now) → IsLive image cp.now n) → IfErr result (Tells (IsReachedFault image cp.now) (HasFeature image cp.now)) }
    ensures no_read { IsErrOf result ReadFault → ⊥ }
{
    let mut kept = those(alloc, noted, how)?;
    by_id(&mut kept);
    beside(&kept, how, cp)
}

impl Gathered {
    /// Whether no two namings name one ephemeral id, or one id in the container's object map. A naming that was noted twice is one.
    pub fn once(&self, alloc: Global, cp: &Checkpoint) -> Result<(), Stop<ReachFault>>
        ensures clear { OnOk result (AreOnceAs ByMapping self.now.namings × AreOnceAs InContainer self.now.namings) }
        ensures present { (image : List ℕ) → ((n : Naming) → In n self.now.namings → IsLive image cp.now n) → IfErr result (Tells (IsReachedFault image cp.now) (HasFeature image cp.now)) }
        ensures no_read { IsErrOf result ReadFault → ⊥ }
    {
        match once_as(alloc, &self.noted, LookUp::ByMapping, cp) {
            Ok(()) => {}
            Err(stop) => return Err(stop),
        }
        once_as(alloc, &self.noted, LookUp::InContainer, cp)
    }
}
