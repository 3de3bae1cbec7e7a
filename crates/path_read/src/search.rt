// The attributes of an id, by a search in a view's tree.
ghost use Rattle.std.specs.Prelude.{◌≡◌, ◌<◌, ℕ, true, List, [], ◌∷◌, Some, None, option_map, IfOk, IfErr, IfSome, IsErrOf};
ghost use Rattle.apfs_model.specs.Counts.{Rose};
ghost use Rattle.apfs_model.specs.Kept.{IsKept};
ghost use Rattle.obj_base.specs.declared.stop.Stop.TheVariants.{ReadFault};
ghost use Rattle.obj_base.specs.Stops.{Tells};
ghost use Rattle.obj_base.specs.Site.{IsSiteFor};
ghost use Rattle.bt_node.specs.Entries.{bytes_in};
ghost use Rattle.bt_keys.specs.RecordKey.{attribute_record};
ghost use Rattle.bt_cursor.specs.Flat.{flat_of};
ghost use Rattle.bt_cursor.specs.Line.{line_of};
ghost use Rattle.bt_cursor.specs.Order.{is_ordered};
ghost use Rattle.bt_cursor.specs.From.{run_in, is_of_kind};
ghost use Rattle.bt_cursor.specs.Faults.{IsNodeFault, HasFeature};
ghost use Rattle.bt_cursor.specs.Cursors.{site_of, root_of, tree_of, left_of, gapped_left_of, fuel_of, IsOn};
ghost use Rattle.fs_record.specs.Facts as facts;
ghost use Rattle.fs_record.specs.Facts.{all_for, attributes_of};
ghost use Rattle.path_search.specs.Pairs.{pair_by};
ghost use Rattle.fs_name.specs.declared.naming.Names.{Names};
ghost use Rattle.path_search.specs.Parts.{HasKindIn};
ghost use Rattle.path_read.specs.Parts.{run_attributes, Takes, TakesNext, IsOfRun, are_whole, GoesWhole, HasRefused};
ghost use Rattle.path_read.specs.declared.search.Took.TheVariants.{One};

use crate::kept::KeptAttribute;
use apfs_layout::key as kinds;
use apfs_model::NoMemory;
use blk_source::BlockSource;
use bt_cursor::{Cursor, Namer, WalkFault};
use bt_keys::FsTreeKey;
use bt_node::{Entry, Rank};
use fs_record::{Attr, RecFault, attr};
use obj_base::Stop;
use std::alloc::Global;

// The kind of records of attributes, as a number of a rank.
const ATTRIBUTE: u64 = kinds::ATTRIBUTE as u64;

/// What is taken of one more record.
#[derive(Clone, Copy, PartialEq, Eq)]
pub(crate) enum Took {
    One,
    End,
    Refused,
}

// The bytes of a value, none where there is no value.
fn bytes(value: Option<&[u8]>) -> &[u8]
    ensures { result.now ≡ bytes_in (option_map (λ v. v.now) value.entry) }
{
    value.unwrap_or(&[])
}

// Whether a record is of an id and a kind.
#[tactic(auto, using(bt_cursor::proofs::Steps::rank_read))]
fn is_in_run<K: FsTreeKey>(pair: &Entry<'_, K>, id: u64, kind: u8) -> bool
    requires { K.shape.read pair.now.key_bytes.now ≡ Some pair.now.key }
    ensures run { result ≡ run_in K.shape (is_of_kind id kind) (pair_by pair.now.key_bytes.now (option_map (λ v. v.now) pair.now.value)) }
    ensures kind { result ≡ true → (K.shape.rank pair.now.key).kind ≡ kind }
{
    pair.key.id() == id && pair.key.kind() == kind
}

// The attribute of a record whose kind is that of attributes.
#[tactic(auto, using(crate::proofs::Searched::plain_read))]
fn read_attribute<'a, K: FsTreeKey>(pair: &Entry<'a, K>) -> Result<Attr<'a>, RecFault>
    requires read { K.shape.read pair.now.key_bytes.now ≡ Some pair.now.key }
    requires kind { (K.shape.rank pair.now.key).kind ≡ attribute_record }
    ensures { result ≡ facts.read_attribute (pair_by pair.now.key_bytes.now (option_map (λ v. v.now) pair.now.value)) }
{
    attr(pair.key_bytes, bytes(pair.value))
}

// Takes the attribute of one more record, where it is one of the id.
fn take<K: FsTreeKey>(
    alloc: Global,
    id: u64,
    pair: &Entry<'_, K>,
    taken: &mut Vec<KeptAttribute>,
) -> Result<Took, NoMemory>
    requires read { K.shape.read pair.now.key_bytes.now ≡ Some pair.now.key }
    ensures run { IfOk result (IsOfRun K.shape id (pair_by pair.now.key_bytes.now (option_map (λ v. v.now) pair.now.value))) }
    ensures takes { IfOk result (Takes K.shape id (pair_by pair.now.key_bytes.now (option_map (λ v. v.now) pair.now.value)) taken.old.items taken.new.items) }
{
    if !is_in_run::<K>(pair, id, kinds::ATTRIBUTE) {
        return Ok(Took::End);
    }
    match read_attribute::<K>(pair) {
        Ok(attribute) => {
            let kept = KeptAttribute::of(alloc, &attribute)?;
            match taken.push(kept) {
                Ok(()) => Ok(Took::One),
                Err(_) => Err(NoMemory),
            }
        }
        Err(_) => Ok(Took::Refused),
    }
}

// Goes on to the next record and takes its attribute, where it is one of the id.
fn take_next<K: FsTreeKey, S: BlockSource, N: Namer>(
    alloc: Global,
    src: &mut S,
    cursor: &mut Cursor<K, N>,
    id: u64,
    taken: &mut Vec<KeptAttribute>,
) -> Result<Took, Stop<WalkFault>>
    requires site { IsSiteFor (site_of cursor.old) (S.bytes_len src.old) }
    ensures site { site_of cursor.new ≡ site_of cursor.old }
    ensures root { root_of cursor.new ≡ root_of cursor.old }
    ensures tree { tree_of cursor.new ≡ tree_of cursor.old }
    ensures within { (image : List ℕ) → S.bytes src.old ≡ Some image → IsOn image cursor.old → IsOn image cursor.new }
    ensures whole { (image : List ℕ) → S.bytes src.old ≡ Some image → IfOk result (GoesWhole K.shape id (gapped_left_of cursor.old image) (gapped_left_of cursor.new image)) }
    ensures taken { (image : List ℕ) → S.bytes src.old ≡ Some image → IfOk result (TakesNext K.shape id (left_of cursor.old image) (left_of cursor.new image) taken.old.items taken.new.items) }
    ensures present { (image : List ℕ) → S.bytes src.old ≡ Some image → IsOn image cursor.old → IfErr result (Tells (IsNodeFault (tree_of cursor.old image) (root_of cursor.old)) (HasFeature (tree_of cursor.old image) (root_of cursor.old))) }
    ensures fuel { IfOk result (λ took. took ≡ One → fuel_of cursor.new < fuel_of cursor.old) }
    ensures cause { IsErrOf result ReadFault → Rose (S.faults src.old) (S.faults src.new) }
    ensures kept { IsKept S.bytes S.bytes_len S.faults src.old src.new }
{
    let more = match cursor.next(src) {
        Ok(more) => more,
        Err(stop) => return Err(stop),
    };
    if !more {
        return Ok(Took::End);
    }
    let took = take::<K>(alloc, id, &cursor.item(), taken)?;
    Ok(took)
}

// The attributes of an id from the cursor's place on; None where one of them can't be read.
fn take_run<K: FsTreeKey, S: BlockSource, N: Namer>(
    alloc: Global,
    src: &mut S,
    cursor: &mut Cursor<K, N>,
    id: u64,
) -> Result<Option<Vec<KeptAttribute>>, Stop<WalkFault>>
    requires site { IsSiteFor (site_of cursor.old) (S.bytes_len src.old) }
    ensures site { site_of cursor.new ≡ site_of cursor.old }
    ensures root { root_of cursor.new ≡ root_of cursor.old }
    ensures tree { tree_of cursor.new ≡ tree_of cursor.old }
    ensures within { (image : List ℕ) → S.bytes src.old ≡ Some image → IsOn image cursor.old → IsOn image cursor.new }
    ensures whole { (image : List ℕ) → S.bytes src.old ≡ Some image → IfOk result (λ run. IfSome run (λ v. are_whole K.shape id (gapped_left_of cursor.old image) ≡ true)) }
    ensures taken { (image : List ℕ) → S.bytes src.old ≡ Some image → IfOk result (λ run. run_attributes K.shape id [] (left_of cursor.old image) ≡ option_map (λ v. v.items) run) }
    ensures present { (image : List ℕ) → S.bytes src.old ≡ Some image → IsOn image cursor.old → IfErr result (Tells (IsNodeFault (tree_of cursor.old image) (root_of cursor.old)) (HasFeature (tree_of cursor.old image) (root_of cursor.old))) }
    ensures cause { IsErrOf result ReadFault → Rose (S.faults src.old) (S.faults src.new) }
    ensures kept { IsKept S.bytes S.bytes_len S.faults src.old src.new }
{
    let mut taken = Vec::new(alloc);
    'run: loop {
        let took = match take_next(alloc, src, cursor, id, &mut taken) {
            Ok(took) => took,
            Err(stop) => return Err(stop),
        };
        match took {
            Took::One => {}
            Took::End => return Ok(Some(taken)),
            Took::Refused => return Ok(None),
        }
    }
}

/// The attributes of an id, by a search for the first of them; None where one of them can't be read.
#[tactic(auto, using(crate::proofs::Searched::attributes_found))]
pub(crate) fn find_attributes<K: FsTreeKey, S: BlockSource, N: Namer>(
    alloc: Global,
    src: &mut S,
    cursor: &mut Cursor<K, N>,
    id: u64,
) -> Result<Option<Vec<KeptAttribute>>, Stop<WalkFault>>
    requires site { IsSiteFor (site_of cursor.old) (S.bytes_len src.old) }
    ensures site { site_of cursor.new ≡ site_of cursor.old }
    ensures root { root_of cursor.new ≡ root_of cursor.old }
    ensures tree { tree_of cursor.new ≡ tree_of cursor.old }
    ensures within { (image : List ℕ) → S.bytes src.old ≡ Some image → IsOn image cursor.old → IsOn image cursor.new }
    ensures found { (image : List ℕ) → S.bytes src.old ≡ Some image → IsOn image cursor.old → is_ordered K.shape (line_of (tree_of cursor.old image) (root_of cursor.old)) ≡ true → IfOk result (λ run. IfSome run (λ v. v.items ≡ all_for id (attributes_of (flat_of (tree_of cursor.old image) (root_of cursor.old))))) }
    ensures all { (image : List ℕ) → S.bytes src.old ≡ Some image → IsOn image cursor.old → is_ordered K.shape (line_of (tree_of cursor.old image) (root_of cursor.old)) ≡ true → IfOk result (λ run. IfSome run (λ v. (names : Names) → HasKindIn names (tree_of cursor.old image) (root_of cursor.old) id attribute_record)) }
    ensures refused { (image : List ℕ) → S.bytes src.old ≡ Some image → IsOn image cursor.old → IfOk result (λ run. run ≡ None → HasRefused (flat_of (tree_of cursor.old image) (root_of cursor.old))) }
    ensures present { (image : List ℕ) → S.bytes src.old ≡ Some image → IsOn image cursor.old → IfErr result (Tells (IsNodeFault (tree_of cursor.old image) (root_of cursor.old)) (HasFeature (tree_of cursor.old image) (root_of cursor.old))) }
    ensures cause { IsErrOf result ReadFault → Rose (S.faults src.old) (S.faults src.new) }
    ensures kept { IsKept S.bytes S.bytes_len S.faults src.old src.new }
{
    let rank = Rank {
        id,
        kind: ATTRIBUTE,
        sub: 0,
    };
    match cursor.seek(src, &rank) {
        Ok(()) => {}
        Err(stop) => return Err(stop),
    }
    match take_run(alloc, src, cursor, id) {
        Ok(run) => Ok(run),
        Err(stop) => Err(stop),
    }
}
