// Which records of snapshots and of names agree: each name is looked up among the others.
ghost use Rattle.std.specs.Prelude.{◌≡◌, ℕ, List, map, true, false, IfOk, IfErr, IfSome, IfNone};
ghost use Rattle.std.specs.List.{list_all};
ghost use Rattle.apfs_model.specs.Lists.{are_distinct};
ghost use Rattle.obj_base.specs.declared.stop.Stop.TheVariants.{NoMemory};
ghost use Rattle.vol_view.specs.Named.{IsIndex, is_told, named_by};
ghost use Rattle.vol_view.specs.Gathered.{are_same};

use crate::VolStop;
use crate::records::{NameRecord, SnapshotRecord};
use obj_base::Stop;
use std::alloc::Global;
use std::collections::BTreeMap;

// A record of a name and a transaction.
trait Named {
    ghost name_of: { Self → List ℕ };

    ghost xid_of: { Self → ℕ };

    fn name(&self) -> &[u8]
        ensures { result.now ≡ name_of self.now };

    fn xid(&self) -> u64
        ensures { result ≡ xid_of self.now };
}

impl Named for SnapshotRecord {
    ghost name_of = { λ r. r.name };

    ghost xid_of = { λ r. r.xid };

    fn name(&self) -> &[u8] {
        self.name.as_slice()
    }

    fn xid(&self) -> u64 {
        self.xid
    }
}

impl Named for NameRecord {
    ghost name_of = { λ r. r.name };

    ghost xid_of = { λ r. r.xid };

    fn name(&self) -> &[u8] {
        self.name.as_slice()
    }

    fn xid(&self) -> u64 {
        self.xid
    }
}

// The transactions of some records by their names; None where a name stands twice.
fn index<'a, T: Named>(
    alloc: Global,
    records: &'a [T],
) -> Result<Option<BTreeMap<&'a [u8], u64>>, Stop<VolStop>>
    ensures found { IfOk result (λ index. IfSome index (IsIndex (map (named_by T.name_of T.xid_of) records.now))) }
    ensures once { IfOk result (λ index. IfSome index (λ _. are_distinct (map T.name_of records.now) ≡ true)) }
    ensures twice { IfOk result (λ index. IfNone index (are_distinct (map T.name_of records.now) ≡ false)) }
    ensures memory_only { IfErr result (λ stop. stop ≡ NoMemory) }
{
    let mut index = BTreeMap::new(alloc);
    let mut i = records.len();
    'records: while i > 0 {
        i -= 1;
        let told = &records[i];
        let before = index.insert(told.name(), told.xid())?;
        if before.is_some() {
            return Ok(None);
        }
    }
    Ok(Some(index))
}

// Whether an index has a name with this transaction.
fn has<'a>(index: &BTreeMap<&'a [u8], u64>, name: &'a [u8], xid: u64) -> bool
    ensures { (known : List (List ℕ × ℕ)) → IsIndex known index.now → result ≡ is_told known name.now xid }
{
    match index.get(&name) {
        Some(found) => *found == xid,
        None => false,
    }
}

// Whether each record is one of an index.
fn all_in<'a, T: Named>(index: &BTreeMap<&'a [u8], u64>, records: &'a [T]) -> bool
    ensures { (known : List (List ℕ × ℕ)) → IsIndex known index.now → result ≡ list_all (λ told. is_told known (T.name_of told) (T.xid_of told)) records.now }
{
    'records: for told in records {
        if !has(index, told.name(), told.xid()) {
            return false;
        }
    }
    true
}

/// Whether the records of snapshots and those of names agree one to one, and no name stands twice.
pub(crate) fn are_named<'a>(
    alloc: Global,
    snapshots: &'a [SnapshotRecord],
    names: &'a [NameRecord],
) -> Result<bool, Stop<VolStop>>
    ensures same { IfOk result (λ same. same ≡ are_same snapshots.now names.now) }
    ensures memory_only { IfErr result (λ stop. stop ≡ NoMemory) }
{
    let of_snapshots = index(alloc, snapshots)?;
    let by_snapshot = match of_snapshots {
        Some(by_snapshot) => by_snapshot,
        None => return Ok(false),
    };
    let of_names = index(alloc, names)?;
    let by_name = match of_names {
        Some(by_name) => by_name,
        None => return Ok(false),
    };
    Ok(all_in(&by_name, snapshots) && all_in(&by_snapshot, names))
}
