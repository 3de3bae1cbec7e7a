// Look-ups of the records of an id by a search in a view's tree.
ghost use Rattle.std.specs.Prelude.{◌≡◌, ◌<◌, ℕ, true, List, [], ◌∷◌, Some, filter, option_map, IfOk, IfErr, IfSome, IsErrOf, OnOk};
ghost use Rattle.apfs_model.specs.Counts.{Rose};
ghost use Rattle.apfs_model.specs.Kept.{IsKept};
ghost use Rattle.apfs_model.specs.Lists.{value_of};
ghost use Rattle.obj_base.specs.declared.stop.Stop.TheVariants.{ReadFault};
ghost use Rattle.obj_base.specs.Stops.{Tells};
ghost use Rattle.obj_base.specs.Site.{IsSiteFor};
ghost use Rattle.bt_node.specs.Entries.{Pair, bytes_in};
ghost use Rattle.bt_keys.specs.RecordKey.{is_fs_key, record_kind_of, entry_record};
ghost use Rattle.bt_cursor.specs.Flat.{flat_of};
ghost use Rattle.bt_cursor.specs.Line.{line_of};
ghost use Rattle.bt_cursor.specs.Order.{is_ordered};
ghost use Rattle.bt_cursor.specs.From.{run_in, is_of_kind};
ghost use Rattle.bt_cursor.specs.Faults.{IsNodeFault, HasFeature};
ghost use Rattle.bt_cursor.specs.Cursors.{site_of, root_of, tree_of, left_of, gapped_left_of, fuel_of, IsOn};
ghost use Rattle.fs_name.specs.Normal.{are_hashed};
ghost use Rattle.fs_record.specs.Inodes.{inode_of};
ghost use Rattle.fs_record.specs.Facts as facts;
ghost use Rattle.fs_record.specs.Facts.{all_for, first_for, entries_of, inodes_of};
ghost use Rattle.path_search.specs.Stays.{Stays, StopsFrom};
ghost use Rattle.path_search.specs.Parts.{whats, is_wanted, with_kept, run_entries, first_inode, Takes, TakesNext, IsOfRun, are_whole, GoesWhole, HasKindIn};
ghost use Rattle.path_search.specs.Pairs.{pair_by};
ghost use Rattle.path_search.specs.declared.search.Took.TheVariants.{One};

use crate::kept::KeptInode;
use apfs_layout::key as kinds;
use apfs_model::NoMemory;
use blk_source::BlockSource;
use bt_cursor::{Cursor, Namer, WalkFault};
use bt_keys::FsTreeKey;
use bt_node::{Entry, Rank};
use fs_name::{Names, same_name};
use fs_record::{DirEntry, RecFault, entry, inode};
use obj_base::Stop;
use std::alloc::Global;
use view_facts::EntryFact;

// The kinds of records of entries and of inodes, as numbers of a rank.
const ENTRY: u64 = kinds::ENTRY as u64;

const INODE: u64 = kinds::INODE as u64;

// The most entries that are taken by a search; where there are more, one walk over the whole tree finds all of them, and their inodes too.
const FEW: usize = 1000;

/// What is taken of one more record.
#[derive(Clone, Copy, PartialEq, Eq)]
pub(crate) enum Took {
    One,
    End,
    Refused,
}

/// Which entries of a directory are kept.
#[derive(Clone, Copy, PartialEq, Eq)]
pub(crate) enum Wanted<'a> {
    /// Each.
    All,
    /// Those of the bytes of a name.
    Same(&'a str),
    /// Those of the normal form of a name.
    Alike(&'a str),
}

// The bytes of a value, none where there is no value.
fn bytes(value: Option<&[u8]>) -> &[u8]
    ensures { result.now ≡ bytes_in (option_map (λ v. v.now) value.entry) }
{
    value.unwrap_or(&[])
}

// Whether a record is of an id and a kind.
#[tactic(auto, using(bt_cursor::proofs::Steps::rank_read))]
fn is_in_run<K: FsTreeKey>(pair: &Entry<'_, K>, id: u64, kind: u8) -> bool
    requires { K.shape.read pair.now.key_bytes.now ≡ Some pair.now.key }
    ensures run { result ≡ run_in K.shape (is_of_kind id kind) (pair_by pair.now.key_bytes.now (option_map (λ v. v.now) pair.now.value)) }
    ensures kind { result ≡ true → (K.shape.rank pair.now.key).kind ≡ kind }
{
    pair.key.id() == id && pair.key.kind() == kind
}

// The entry of a record whose key is one of an entry.
#[tactic(auto, using(bt_keys::proofs::FsKeys::entry_named))]
fn entry_by<'a>(
    names: Names,
    key: &'a [u8],
    value: Option<&'a [u8]>,
) -> Result<DirEntry<'a>, RecFault>
    requires whole { is_fs_key (are_hashed names) key.now ≡ true }
    requires kind { record_kind_of key.now ≡ entry_record }
    ensures { result ≡ facts.read_entry names (pair_by key.now (option_map (λ v. v.now) value.entry)) }
{
    entry(names, key, bytes(value))
}

// The entry of a record whose kind is that of entries.
#[tactic(auto, using(bt_keys::proofs::FsKeys::kind_read))]
fn read_entry<'a, K: FsTreeKey>(names: Names, pair: &Entry<'a, K>) -> Result<DirEntry<'a>, RecFault>
    requires hashed { are_hashed names ≡ K.HASHED }
    requires read { K.shape.read pair.now.key_bytes.now ≡ Some pair.now.key }
    requires kind { (K.shape.rank pair.now.key).kind ≡ entry_record }
    ensures { result ≡ facts.read_entry names (pair_by pair.now.key_bytes.now (option_map (λ v. v.now) pair.now.value)) }
{
    entry_by(names, pair.key_bytes, pair.value)
}

// The inode of a record's value.
fn read_inode(value: Option<&[u8]>) -> Option<KeptInode>
    ensures { result ≡ value_of (inode_of (bytes_in (option_map (λ v. v.now) value.entry))) }
{
    match inode(bytes(value)) {
        Ok(inode) => Some(KeptInode::of(&inode)),
        Err(_) => None,
    }
}

// Whether an entry is kept.
fn is_kept(
    alloc: Global,
    names: Names,
    wanted: Wanted<'_>,
    entry: &DirEntry<'_>,
) -> Result<bool, NoMemory>
    ensures { IfOk result (λ is. is ≡ is_wanted names wanted.entry entry.now) }
{
    match wanted {
        Wanted::All => Ok(true),
        Wanted::Same(name) => Ok(entry.name() == name),
        Wanted::Alike(name) => same_name(alloc, names, entry.name(), name),
    }
}

// Keeps an entry of a directory, where it is wanted.
fn keep(
    alloc: Global,
    names: Names,
    id: u64,
    wanted: Wanted<'_>,
    entry: &DirEntry<'_>,
    taken: &mut Vec<EntryFact>,
) -> Result<(), NoMemory>
    ensures { OnOk result (whats taken.new.items ≡ with_kept (is_wanted names wanted.entry entry.now) entry.now (whats taken.old.items)) }
{
    if !is_kept(alloc, names, wanted, entry)? {
        return Ok(());
    }
    let kept = EntryFact::of(alloc, id, entry)?;
    match taken.push(kept) {
        Ok(()) => Ok(()),
        Err(_) => Err(NoMemory),
    }
}

// Takes the entry of one more record, where it is one of the directory.
fn take<K: FsTreeKey>(
    alloc: Global,
    names: Names,
    id: u64,
    wanted: Wanted<'_>,
    pair: &Entry<'_, K>,
    taken: &mut Vec<EntryFact>,
) -> Result<Took, NoMemory>
    requires hashed { are_hashed names ≡ K.HASHED }
    requires read { K.shape.read pair.now.key_bytes.now ≡ Some pair.now.key }
    ensures run { IfOk result (IsOfRun K.shape id (pair_by pair.now.key_bytes.now (option_map (λ v. v.now) pair.now.value))) }
    ensures takes { IfOk result (Takes K.shape names (is_wanted names wanted.entry) id (pair_by pair.now.key_bytes.now (option_map (λ v. v.now) pair.now.value)) (whats taken.old.items) (whats taken.new.items)) }
{
    if !is_in_run::<K>(pair, id, kinds::ENTRY) {
        return Ok(Took::End);
    }
    match read_entry::<K>(names, pair) {
        Ok(entry) => {
            keep(alloc, names, id, wanted, &entry, taken)?;
            Ok(Took::One)
        }
        Err(_) => Ok(Took::Refused),
    }
}

// Goes on to the next record and takes its entry, where it is one of the directory.
fn take_next<K: FsTreeKey, S: BlockSource, N: Namer>(
    alloc: Global,
    src: &mut S,
    cursor: &mut Cursor<K, N>,
    names: Names,
    id: u64,
    wanted: Wanted<'_>,
    taken: &mut Vec<EntryFact>,
) -> Result<Took, Stop<WalkFault>>
    requires site { IsSiteFor (site_of cursor.old) (S.bytes_len src.old) }
    requires hashed { are_hashed names ≡ K.HASHED }
    ensures stays { Stays S.bytes S.bytes_len S.faults src.old src.new cursor.old cursor.new }
    ensures whole { (image : List ℕ) → S.bytes src.old ≡ Some image → IfOk result (GoesWhole K.shape id (gapped_left_of cursor.old image) (gapped_left_of cursor.new image)) }
    ensures taken { (image : List ℕ) → S.bytes src.old ≡ Some image → IfOk result (TakesNext K.shape names (is_wanted names wanted.entry) id (left_of cursor.old image) (left_of cursor.new image) (whats taken.old.items) (whats taken.new.items)) }
    ensures stops { IfErr result (StopsFrom S.bytes S.faults src.old src.new cursor.old) }
    ensures fuel { IfOk result (λ took. took ≡ One → fuel_of cursor.new < fuel_of cursor.old) }
{
    let more = match cursor.next(src) {
        Ok(more) => more,
        Err(stop) => return Err(stop),
    };
    if !more {
        return Ok(Took::End);
    }
    let took = take::<K>(alloc, names, id, wanted, &cursor.item(), taken)?;
    Ok(took)
}

// The entries of a directory from the cursor's place on that are wanted; None where one of the directory's can't be read, or there are many.
fn take_run<K: FsTreeKey, S: BlockSource, N: Namer>(
    alloc: Global,
    src: &mut S,
    cursor: &mut Cursor<K, N>,
    names: Names,
    id: u64,
    wanted: Wanted<'_>,
) -> Result<Option<Vec<EntryFact>>, Stop<WalkFault>>
    requires site { IsSiteFor (site_of cursor.old) (S.bytes_len src.old) }
    requires hashed { are_hashed names ≡ K.HASHED }
    ensures stays { Stays S.bytes S.bytes_len S.faults src.old src.new cursor.old cursor.new }
    ensures whole { (image : List ℕ) → S.bytes src.old ≡ Some image → IfOk result (λ run. IfSome run (λ v. are_whole K.shape id (gapped_left_of cursor.old image) ≡ true)) }
    ensures taken { (image : List ℕ) → S.bytes src.old ≡ Some image → IfOk result (λ run. IfSome run (λ v. run_entries K.shape names (is_wanted names wanted.entry) id [] (left_of cursor.old image) ≡ Some (whats v.items))) }
    ensures stops { IfErr result (StopsFrom S.bytes S.faults src.old src.new cursor.old) }
{
    let mut taken = Vec::new(alloc);
    'run: loop {
        let took = match take_next(alloc, src, cursor, names, id, wanted, &mut taken) {
            Ok(took) => took,
            Err(stop) => return Err(stop),
        };
        match took {
            Took::One => {}
            Took::End => return Ok(Some(taken)),
            Took::Refused => return Ok(None),
        }
        if taken.len() > FEW {
            return Ok(None);
        }
    }
}

/// The entries of a directory that are wanted, by a search for its first; None where one of the directory's can't be read, or there are many.
#[tactic(auto, using(crate::proofs::Searched::entries_found))]
pub(crate) fn find_entries<K: FsTreeKey, S: BlockSource, N: Namer>(
    alloc: Global,
    src: &mut S,
    cursor: &mut Cursor<K, N>,
    names: Names,
    id: u64,
    wanted: Wanted<'_>,
) -> Result<Option<Vec<EntryFact>>, Stop<WalkFault>>
    requires site { IsSiteFor (site_of cursor.old) (S.bytes_len src.old) }
    requires hashed { are_hashed names ≡ K.HASHED }
    ensures stays { Stays S.bytes S.bytes_len S.faults src.old src.new cursor.old cursor.new }
    ensures found { (image : List ℕ) → S.bytes src.old ≡ Some image → IsOn image cursor.old → is_ordered K.shape (line_of (tree_of cursor.old image) (root_of cursor.old)) ≡ true → IfOk result (λ run. IfSome run (λ v. whats v.items ≡ filter (is_wanted names wanted.entry) (all_for id (entries_of names (flat_of (tree_of cursor.old image) (root_of cursor.old)))))) }
    ensures all { (image : List ℕ) → S.bytes src.old ≡ Some image → IsOn image cursor.old → is_ordered K.shape (line_of (tree_of cursor.old image) (root_of cursor.old)) ≡ true → IfOk result (λ run. IfSome run (λ v. HasKindIn names (tree_of cursor.old image) (root_of cursor.old) id entry_record)) }
    ensures stops { IfErr result (StopsFrom S.bytes S.faults src.old src.new cursor.old) }
{
    let rank = Rank {
        id,
        kind: ENTRY,
        sub: 0,
    };
    match cursor.seek(src, &rank) {
        Ok(()) => {}
        Err(stop) => return Err(stop),
    }
    match take_run(alloc, src, cursor, names, id, wanted) {
        Ok(run) => Ok(run),
        Err(stop) => Err(stop),
    }
}

// The inode of a record, where it is one of the id.
fn inode_in<K: FsTreeKey>(pair: &Entry<'_, K>, id: u64) -> Option<KeptInode>
    requires { K.shape.read pair.now.key_bytes.now ≡ Some pair.now.key }
    ensures { (pairs : List Pair) → result ≡ first_inode K.shape id (pair_by pair.now.key_bytes.now (option_map (λ v. v.now) pair.now.value) ∷ pairs) }
{
    if is_in_run::<K>(pair, id, kinds::INODE) {
        read_inode(pair.value)
    } else {
        None
    }
}

// The inode of an id from the cursor's place on.
fn next_inode<K: FsTreeKey, S: BlockSource, N: Namer>(
    src: &mut S,
    cursor: &mut Cursor<K, N>,
    id: u64,
) -> Result<Option<KeptInode>, Stop<WalkFault>>
    requires site { IsSiteFor (site_of cursor.old) (S.bytes_len src.old) }
    ensures stays { Stays S.bytes S.bytes_len S.faults src.old src.new cursor.old cursor.new }
    ensures found { (image : List ℕ) → S.bytes src.old ≡ Some image → IfOk result (λ inode. inode ≡ first_inode K.shape id (left_of cursor.old image)) }
    ensures stops { IfErr result (StopsFrom S.bytes S.faults src.old src.new cursor.old) }
{
    let more = match cursor.next(src) {
        Ok(more) => more,
        Err(stop) => return Err(stop),
    };
    if !more {
        return Ok(None);
    }
    Ok(inode_in::<K>(&cursor.item(), id))
}

/// The inode of an id, by a search; None where there is none, or it can't be read.
#[tactic(auto, using(crate::proofs::Searched::inode_found))]
pub(crate) fn find_inode<K: FsTreeKey, S: BlockSource, N: Namer>(
    src: &mut S,
    cursor: &mut Cursor<K, N>,
    id: u64,
) -> Result<Option<KeptInode>, Stop<WalkFault>>
    requires site { IsSiteFor (site_of cursor.old) (S.bytes_len src.old) }
    ensures stays { Stays S.bytes S.bytes_len S.faults src.old src.new cursor.old cursor.new }
    ensures found { (image : List ℕ) → S.bytes src.old ≡ Some image → IsOn image cursor.old → is_ordered K.shape (line_of (tree_of cursor.old image) (root_of cursor.old)) ≡ true → IfOk result (λ found. IfSome found (λ inode. first_for id (inodes_of (flat_of (tree_of cursor.old image) (root_of cursor.old))) ≡ Some inode)) }
    ensures stops { IfErr result (StopsFrom S.bytes S.faults src.old src.new cursor.old) }
{
    let rank = Rank {
        id,
        kind: INODE,
        sub: 0,
    };
    match cursor.seek(src, &rank) {
        Ok(()) => {}
        Err(stop) => return Err(stop),
    }
    match next_inode(src, cursor, id) {
        Ok(inode) => Ok(inode),
        Err(stop) => Err(stop),
    }
}
