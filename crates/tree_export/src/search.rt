// The inode of an id, by a search in a view's tree.
ghost use Rattle.std.specs.Prelude.{◌≡◌, ℕ, true, List, ◌∷◌, Some, option_map, IfOk, IfErr, IsErrOf};
ghost use Rattle.apfs_model.specs.Counts.{Rose};
ghost use Rattle.apfs_model.specs.Kept.{IsKept};
ghost use Rattle.obj_base.specs.declared.stop.Stop.TheVariants.{ReadFault};
ghost use Rattle.obj_base.specs.Stops.{Tells};
ghost use Rattle.obj_base.specs.Site.{IsSiteFor};
ghost use Rattle.bt_node.specs.Entries.{Pair, bytes_in};
ghost use Rattle.bt_keys.specs.RecordKey.{inode_record};
ghost use Rattle.bt_cursor.specs.Flat.{flat_of};
ghost use Rattle.bt_cursor.specs.Line.{line_of};
ghost use Rattle.bt_cursor.specs.Order.{is_ordered};
ghost use Rattle.bt_cursor.specs.From.{run_in, is_of_kind};
ghost use Rattle.bt_cursor.specs.Faults.{IsNodeFault, HasFeature};
ghost use Rattle.bt_cursor.specs.Cursors.{site_of, root_of, tree_of, left_of, IsOn};
ghost use Rattle.path_search.specs.Pairs.{pair_by};
ghost use Rattle.tree_export.specs.Parts.{first_record, sought_as, TellsOrdered, TellsRecord};

use crate::content::{Content, content_of};
use apfs_layout::key as kinds;
use blk_source::BlockSource;
use bt_cursor::{Cursor, Namer, WalkFault};
use bt_keys::FsTreeKey;
use bt_node::{Entry, Rank};
use fs_record::{RecFault, inode};
use obj_base::Stop;

// The kind of records of inodes, as a number of a rank.
const INODE: u64 = kinds::INODE as u64;

/// What a search for the inode of an id has found.
#[derive(Clone, Copy, PartialEq, Eq)]
pub(crate) enum Sought {
    One(Content),
    Refused(RecFault),
    Missing,
}

// The bytes of a value, none where there is no value.
fn bytes(value: Option<&[u8]>) -> &[u8]
    ensures { result.now ≡ bytes_in (option_map (λ v. v.now) value.entry) }
{
    value.unwrap_or(&[])
}

// Whether a record is one of the inode of an id.
#[tactic(auto, using(bt_cursor::proofs::Steps::rank_read))]
fn is_inode_of<K: FsTreeKey>(pair: &Entry<'_, K>, id: u64) -> bool
    requires { K.shape.read pair.now.key_bytes.now ≡ Some pair.now.key }
    ensures { result ≡ run_in K.shape (is_of_kind id inode_record) (pair_by pair.now.key_bytes.now (option_map (λ v. v.now) pair.now.value)) }
{
    pair.key.id() == id && pair.key.kind() == kinds::INODE
}

// What a record tells of the inode of an id.
fn sought_in<K: FsTreeKey>(pair: &Entry<'_, K>, id: u64) -> Sought
    requires { K.shape.read pair.now.key_bytes.now ≡ Some pair.now.key }
    ensures { (pairs : List Pair) → result ≡ sought_as (first_record K.shape id (pair_by pair.now.key_bytes.now (option_map (λ v. v.now) pair.now.value) ∷ pairs)) }
{
    if !is_inode_of::<K>(pair, id) {
        return Sought::Missing;
    }
    match inode(bytes(pair.value)) {
        Ok(inode) => Sought::One(content_of(&inode)),
        Err(why) => Sought::Refused(why),
    }
}

// What the next record tells of the inode of an id.
fn next_inode<K: FsTreeKey, S: BlockSource, N: Namer>(
    src: &mut S,
    cursor: &mut Cursor<K, N>,
    id: u64,
) -> Result<Sought, Stop<WalkFault>>
    requires site { IsSiteFor (site_of cursor.old) (S.bytes_len src.old) }
    ensures found { (image : List ℕ) → S.bytes src.old ≡ Some image → IfOk result (λ sought. sought ≡ sought_as (first_record K.shape id (left_of cursor.old image))) }
    ensures present { (image : List ℕ) → S.bytes src.old ≡ Some image → IsOn image cursor.old → IfErr result (Tells (IsNodeFault (tree_of cursor.old image) (root_of cursor.old)) (HasFeature (tree_of cursor.old image) (root_of cursor.old))) }
    ensures cause { IsErrOf result ReadFault → Rose (S.faults src.old) (S.faults src.new) }
    ensures kept { IsKept S.bytes S.bytes_len S.faults src.old src.new }
{
    let more = match cursor.next(src) {
        Ok(more) => more,
        Err(stop) => return Err(stop),
    };
    if !more {
        return Ok(Sought::Missing);
    }
    Ok(sought_in::<K>(&cursor.item(), id))
}

/// The inode of an id, by a search for its record.
pub(crate) fn find_inode<K: FsTreeKey, S: BlockSource, N: Namer>(
    src: &mut S,
    cursor: &mut Cursor<K, N>,
    id: u64,
) -> Result<Sought, Stop<WalkFault>>
    requires site { IsSiteFor (site_of cursor.old) (S.bytes_len src.old) }
    ensures ordered { (image : List ℕ) → S.bytes src.old ≡ Some image → IsOn image cursor.old → is_ordered K.shape (line_of (tree_of cursor.old image) (root_of cursor.old)) ≡ true → IfOk result (TellsOrdered (flat_of (tree_of cursor.old image) (root_of cursor.old)) id) }
    ensures record { (image : List ℕ) → S.bytes src.old ≡ Some image → IsOn image cursor.old → IfOk result (TellsRecord (flat_of (tree_of cursor.old image) (root_of cursor.old)) id) }
    ensures present { (image : List ℕ) → S.bytes src.old ≡ Some image → IsOn image cursor.old → IfErr result (Tells (IsNodeFault (tree_of cursor.old image) (root_of cursor.old)) (HasFeature (tree_of cursor.old image) (root_of cursor.old))) }
    ensures cause { IsErrOf result ReadFault → Rose (S.faults src.old) (S.faults src.new) }
    ensures kept { IsKept S.bytes S.bytes_len S.faults src.old src.new }
{
    let rank = Rank {
        id,
        kind: INODE,
        sub: 0,
    };
    match cursor.seek(src, &rank) {
        Ok(()) => {}
        Err(stop) => return Err(stop),
    }
    match next_inode(src, cursor, id) {
        Ok(sought) => Ok(sought),
        Err(stop) => Err(stop),
    }
}
