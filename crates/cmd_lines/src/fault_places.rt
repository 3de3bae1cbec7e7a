// The texts of faults and of notes, by the places that they name.
ghost use Rattle.std.specs.Prelude.{◌≡◌, ◌++◌, IfOk};
ghost use Rattle.std.specs.Fmt.{signed_decimal};
ghost use Rattle.std.specs.String.{string_bytes};
ghost use Rattle.cmd_lines.specs.FaultTexts as texts;
ghost use Rattle.cmd_lines.specs.ReportText as notes;

use crate::fault_words::{record_word, why_word, within_text};
use apfs_model::Bytes;
use fs_name::push_shown;
use fs_record::RecFault;
use obj_base::Within;
use reach_rules::Why;
use std::alloc::{AllocError, Global};
use view_rules::{IdAt, NamedAt};

/// A word alone.
pub fn plain(alloc: Global, word: &str) -> Result<Vec<u8>, AllocError>
    ensures { IfOk result (λ text. text.items ≡ word.now) }
{
    Ok(String::from_str(alloc, word)?.into_bytes())
}

/// An image has fewer blocks than it needs.
pub fn truncated(alloc: Global, have: u64, need: u64) -> Result<Vec<u8>, AllocError>
    ensures { IfOk result (λ text. text.items ≡ texts.truncated_text have need) }
{
    Ok(format!(in alloc; "Truncated have {have} need {need}")?.into_bytes())
}

/// A candidate is newer than the newest valid checkpoint.
pub fn skipped(alloc: Global, index: u32, xid: u64) -> Result<Vec<u8>, AllocError>
    ensures { IfOk result (λ text. text.items ≡ notes.skipped_text index xid) }
{
    Ok(format!(in alloc; "note skipped index {index} xid {xid}")?.into_bytes())
}

/// An object in a block fails a test.
pub fn unsound(alloc: Global, block: u64, why: Why) -> Result<Vec<u8>, AllocError>
    ensures { IfOk result (λ text. text.items ≡ texts.unsound_text block (texts.why_word why)) }
{
    let word = why_word(why);
    Ok(format!(in alloc; "Unsound block {block} {word}")?.into_bytes())
}

/// An id in a space at a transaction.
pub fn of_oid(
    alloc: Global,
    word: &str,
    within: Within,
    oid: u64,
    xid: u64,
) -> Result<Vec<u8>, AllocError>
    ensures { IfOk result (λ text. text.items ≡ texts.oid_text word.now within oid xid) }
{
    let place = within_text(alloc, within)?;
    Ok(format!(in alloc; "{word} {place} oid {oid} xid {xid}")?.into_bytes())
}

/// A volume in a slot.
pub fn of_slot(alloc: Global, slot: u32, word: &str) -> Result<Vec<u8>, AllocError>
    ensures { IfOk result (λ text. text.items ≡ texts.slot_text slot word.now) }
{
    Ok(format!(in alloc; "Volume {slot} {word}")?.into_bytes())
}

/// A block.
pub fn of_block(alloc: Global, word: &str, block: u64) -> Result<Vec<u8>, AllocError>
    ensures { IfOk result (λ text. text.items ≡ texts.block_text word.now block) }
{
    Ok(format!(in alloc; "{word} block {block}")?.into_bytes())
}

/// A number after a word.
pub fn of_number(alloc: Global, word: &str, number: u64) -> Result<Vec<u8>, AllocError>
    ensures { IfOk result (λ text. text.items ≡ texts.number_text word.now number) }
{
    Ok(format!(in alloc; "{word} {number}")?.into_bytes())
}

/// A tree by the block of its root.
pub fn of_root(alloc: Global, word: &str, root: u64) -> Result<Vec<u8>, AllocError>
    ensures { IfOk result (λ text. text.items ≡ texts.root_text word.now root) }
{
    Ok(format!(in alloc; "{word} root {root}")?.into_bytes())
}

/// An item of a tree.
pub fn of_item(alloc: Global, word: &str, root: u64, item: u64) -> Result<Vec<u8>, AllocError>
    ensures { IfOk result (λ text. text.items ≡ texts.item_text (texts.root_text word.now root) item) }
{
    Ok(format!(in alloc; "{word} root {root} item {item}")?.into_bytes())
}

/// A view.
pub fn of_view(alloc: Global, word: &str, slot: u32, xid: u64) -> Result<Vec<u8>, AllocError>
    ensures { IfOk result (λ text. text.items ≡ texts.view_text word.now slot xid) }
{
    Ok(format!(in alloc; "{word} volume {slot} view {xid}")?.into_bytes())
}

/// An item of a view.
pub fn of_view_item(
    alloc: Global,
    word: &str,
    slot: u32,
    xid: u64,
    item: u64,
) -> Result<Vec<u8>, AllocError>
    ensures { IfOk result (λ text. text.items ≡ texts.item_text (texts.view_text word.now slot xid) item) }
{
    Ok(format!(in alloc; "{word} volume {slot} view {xid} item {item}")?.into_bytes())
}

/// The record of an item of a view.
pub fn of_record(
    alloc: Global,
    slot: u32,
    xid: u64,
    item: u64,
    why: RecFault,
) -> Result<Vec<u8>, AllocError>
    ensures { IfOk result (λ text. text.items ≡ texts.record_text slot xid item why) }
{
    let mut text = of_view_item(alloc, "Record", slot, xid, item)?;
    text.push(b' ')?;
    text.extend_from_slice(record_word(why).as_bytes())?;
    Ok(text)
}

// An object of a view by its id.
pub fn object(
    alloc: Global,
    word: &str,
    slot: u32,
    xid: u64,
    id: u64,
) -> Result<Vec<u8>, AllocError>
    ensures { IfOk result (λ text. text.items ≡ texts.object_text word.now slot xid id) }
{
    Ok(format!(in alloc; "{word} volume {slot} view {xid} id {id}")?.into_bytes())
}

// An object of a view by its id and a name of it.
fn named(
    alloc: Global,
    word: &str,
    slot: u32,
    xid: u64,
    id: u64,
    name: &[u8],
) -> Result<Vec<u8>, AllocError>
    ensures { IfOk result (λ text. text.items ≡ texts.named_text word.now slot xid id name.now) }
{
    let mut text = object(alloc, word, slot, xid, id)?;
    text.extend_from_slice(b" name ")?;
    push_shown(&mut text, name)?;
    Ok(text)
}

/// An object of a view.
pub fn of_id(alloc: Global, word: &str, at: &IdAt) -> Result<Vec<u8>, AllocError>
    ensures { IfOk result (λ text. text.items ≡ texts.id_text word.now at.now) }
{
    object(alloc, word, at.slot, at.xid, at.id)
}

/// A run of blocks of a volume.
pub fn of_run(
    alloc: Global,
    word: &str,
    slot: u32,
    block: u64,
    length: u64,
) -> Result<Vec<u8>, AllocError>
    ensures { IfOk result (λ text. text.items ≡ texts.run_text word.now slot block length) }
{
    Ok(format!(in alloc; "{word} volume {slot} block {block} length {length}")?.into_bytes())
}

/// A new range of a volume, with the count that it stores and the number of its streams.
pub fn of_count(
    alloc: Global,
    word: &str,
    slot: u32,
    block: u64,
    stored: i32,
    streams: u64,
) -> Result<Vec<u8>, AllocError>
    ensures { IfOk result (λ text. text.items ≡ texts.count_text word.now slot block (signed_decimal stored) streams) }
{
    Ok(format!(in alloc;
        "{word} volume {slot} block {block} stored {stored} streams {streams}"
    )?.into_bytes())
}

/// A name of an object of a view.
pub fn of_name(alloc: Global, word: &str, at: &NamedAt) -> Result<Vec<u8>, AllocError>
    ensures { IfOk result (λ text. text.items ≡ texts.name_text word.now at.now) }
{
    named(alloc, word, at.slot, at.xid, at.id, at.name.as_slice())
}

/// An id without an inode; without a name it is that of the root.
pub fn no_inode(
    alloc: Global,
    slot: u32,
    xid: u64,
    id: u64,
    name: &Option<Bytes>,
) -> Result<Vec<u8>, AllocError>
    ensures { IfOk result (λ text. text.items ≡ texts.inode_text slot xid id name.now) }
{
    match name {
        Some(name) => named(alloc, "NoInode", slot, xid, id, name.as_slice()),
        None => object(alloc, "NoInode", slot, xid, id),
    }
}
