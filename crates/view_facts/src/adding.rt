// What one more record adds to the facts of a view.
ghost use Rattle.std.specs.Prelude.{◌≡◌, ◌≤◌, ◌++◌, [], ◌∷◌, length, true, false, Some, option_map, IfOk, OnOk};
ghost use Rattle.bt_node.specs.Entries.{bytes_in};
ghost use Rattle.bt_keys.specs.RecordKey.{is_fs_key, record_kind_of, id_of, has_plain_name};
ghost use Rattle.fs_name.specs.Normal.{are_hashed};
ghost use Rattle.fs_record.specs.Inodes.{inode_of};
ghost use Rattle.fs_record.specs.Entries.{entry_of};
ghost use Rattle.fs_record.specs.Reading.{has_entry_name, body_seen};
ghost use Rattle.fs_record.specs.Attributes.{attribute_of, Embedded};
ghost use Rattle.fs_record.specs.Siblings.{link_of, sibling_file_of};
ghost use Rattle.fs_record.specs.Extents.{extent_of};
ghost use Rattle.fs_record.specs.Facts as spec;
ghost use Rattle.view_facts.specs.Contents.{body_of, brief_body};
ghost use Rattle.view_facts.specs.Options.{stream_of};
ghost use Rattle.view_facts.specs.Adding.{said_by, brief_said, is_file_record, facts_with};

use crate::contents::{Contents, TARGET_NAME};
use crate::scope::Scope;
use crate::text::copied;
use crate::{AttributeFact, EntryFact, ExtentFact, Facts, InodeFact, LinkFact, SiblingFact};
use apfs_layout::key as kinds;
use blk_source::NoMemory;
use bt_keys::FsTreeKey;
use bt_node::Entry;
use fs_name::Names;
use fs_record::{
    AttrBody, RecFault, StreamSize, attr, entry, file_ext, inode, refused, sibling_link,
    sibling_map,
};
use std::alloc::Global;

// Puts a fact after those that are kept.
fn put<T: Drop>(list: &mut Vec<T>, fact: T) -> Result<(), NoMemory>
    ensures { OnOk result (list.new.items ≡ list.old.items ++ fact ∷ []) }
{
    list.push(fact)?;
    Ok(())
}

// The bytes of a value, none where there is no value.
fn bytes(value: Option<&[u8]>) -> &[u8]
    ensures { result.now ≡ bytes_in (option_map (λ v. v.now) value.entry) }
{
    value.unwrap_or(&[])
}

// Whether there is a stream, and its sizes.
fn stream_parts(stream: Option<StreamSize>) -> (bool, StreamSize)
    ensures { stream_of result.0 result.1 ≡ stream }
{
    match stream {
        Some(size) => (true, size),
        None => (
            false,
            StreamSize {
                size: 0,
                allocated: 0,
            },
        ),
    }
}

// Adds the inode of a record, or tells why its reader refuses it.
fn add_inode(list: &mut Vec<InodeFact>, id: u64, value: &[u8]) -> Result<Option<RecFault>, NoMemory>
    ensures facts { OnOk result (list.new.items ≡ list.old.items ++ said_by id (inode_of value.now)) }
    ensures refused { IfOk result (λ why. why ≡ spec.fault_of (inode_of value.now)) }
{
    let inode = match inode(value) {
        Ok(inode) => inode,
        Err(why) => return Ok(Some(why)),
    };
    let (has_stream, stream) = stream_parts(inode.stream());
    let fact = InodeFact {
        id,
        parent: inode.parent(),
        private_id: inode.private_id(),
        stream,
        links: inode.links(),
        bsd_flags: inode.bsd_flags(),
        mode: inode.mode(),
        has_stream,
    };
    put(list, fact)?;
    Ok(None)
}

// Adds the entry of a record, or tells why its reader refuses it.
fn add_entry(
    alloc: Global,
    list: &mut Vec<EntryFact>,
    names: Names,
    id: u64,
    key: &[u8],
    value: &[u8],
) -> Result<Option<RecFault>, NoMemory>
    requires { has_entry_name names key.now ≡ true }
    ensures facts { OnOk result (list.new.items ≡ list.old.items ++ said_by id (entry_of names key.now value.now)) }
    ensures refused { IfOk result (λ why. why ≡ spec.fault_of (entry_of names key.now value.now)) }
{
    let entry = match entry(names, key, value) {
        Ok(entry) => entry,
        Err(why) => return Ok(Some(why)),
    };
    put(list, EntryFact::of(alloc, id, &entry)?)?;
    Ok(None)
}

// The bytes that are kept of an attribute's contents: those of the target of a symbolic link.
fn kept<'a>(name: &str, bytes: &'a [u8]) -> &'a [u8]
    ensures { brief_body name.now (Embedded bytes.now) ≡ Embedded result.now }
{
    if name == TARGET_NAME { bytes } else { &[] }
}

// What is kept of an attribute's contents.
fn contents(alloc: Global, name: &str, body: AttrBody<'_>) -> Result<Contents, NoMemory>
    ensures { IfOk result (λ contents. body_of contents ≡ brief_body name.now (body_seen body.entry)) }
{
    match body {
        AttrBody::Embedded(bytes) => {
            let bytes = kept(name, bytes).to_vec(alloc)?;
            Ok(Contents::Embedded(bytes))
        }
        AttrBody::Stream { id, size } => Ok(Contents::Stream { id, size }),
    }
}

// Adds the attribute of a record, or tells why its reader refuses it.
fn add_attribute(
    alloc: Global,
    list: &mut Vec<AttributeFact>,
    id: u64,
    key: &[u8],
    value: &[u8],
) -> Result<Option<RecFault>, NoMemory>
    requires { has_plain_name key.now ≡ true }
    ensures facts { OnOk result (list.new.items ≡ list.old.items ++ brief_said id (attribute_of key.now value.now)) }
    ensures refused { IfOk result (λ why. why ≡ spec.fault_of (attribute_of key.now value.now)) }
{
    let attribute = match attr(key, value) {
        Ok(attribute) => attribute,
        Err(why) => return Ok(Some(why)),
    };
    let name = copied(alloc, attribute.name())?;
    let contents = contents(alloc, attribute.name(), attribute.body())?;
    put(list, AttributeFact { id, name, contents })?;
    Ok(None)
}

// Adds the sibling link of a record, or tells why its reader refuses it.
fn add_link(
    alloc: Global,
    list: &mut Vec<LinkFact>,
    id: u64,
    key: &[u8],
    value: &[u8],
) -> Result<Option<RecFault>, NoMemory>
    requires { 16 ≤ length key.now }
    ensures facts { OnOk result (list.new.items ≡ list.old.items ++ said_by id (link_of key.now value.now)) }
    ensures refused { IfOk result (λ why. why ≡ spec.fault_of (link_of key.now value.now)) }
{
    let link = match sibling_link(key, value) {
        Ok(link) => link,
        Err(why) => return Ok(Some(why)),
    };
    let name = copied(alloc, link.name())?;
    let fact = LinkFact {
        id,
        file: link.file(),
        sibling: link.sibling(),
        parent: link.parent(),
        name,
    };
    put(list, fact)?;
    Ok(None)
}

// Adds the sibling map of a record, or tells why its reader refuses it.
fn add_sibling(
    list: &mut Vec<SiblingFact>,
    id: u64,
    value: &[u8],
) -> Result<Option<RecFault>, NoMemory>
    ensures facts { OnOk result (list.new.items ≡ list.old.items ++ said_by id (sibling_file_of value.now)) }
    ensures refused { IfOk result (λ why. why ≡ spec.fault_of (sibling_file_of value.now)) }
{
    let file = match sibling_map(value) {
        Ok(file) => file,
        Err(why) => return Ok(Some(why)),
    };
    put(list, SiblingFact { id, file })?;
    Ok(None)
}

// Adds the extent of a record, or tells why its reader refuses it.
fn add_extent(
    list: &mut Vec<ExtentFact>,
    id: u64,
    key: &[u8],
    value: &[u8],
) -> Result<Option<RecFault>, NoMemory>
    requires { 16 ≤ length key.now }
    ensures facts { OnOk result (list.new.items ≡ list.old.items ++ said_by id (extent_of key.now value.now)) }
    ensures refused { IfOk result (λ why. why ≡ spec.fault_of (extent_of key.now value.now)) }
{
    let extent = match file_ext(key, value) {
        Ok(extent) => extent,
        Err(why) => return Ok(Some(why)),
    };
    put(list, ExtentFact { id, extent })?;
    Ok(None)
}

// Adds what a record says to the facts, or tells why its reader refuses it; records of other kinds say nothing.
#[tactic(auto, using(bt_keys::proofs::FsKeys::entry_named, bt_keys::proofs::FsKeys::attribute_named, bt_keys::proofs::FsKeys::link_long, bt_keys::proofs::FsKeys::extent_long), unfolding(fs_record::specs::Facts::refused))]
fn add(
    alloc: Global,
    facts: &mut Facts,
    kind: u8,
    id: u64,
    key: &[u8],
    value: Option<&[u8]>,
) -> Result<Option<RecFault>, NoMemory>
    requires whole { is_fs_key (are_hashed facts.old.names) key.now ≡ true }
    requires kind { kind ≡ record_kind_of key.now }
    requires id { id ≡ id_of key.now }
    ensures facts { OnOk result (facts.new ≡ facts_with false facts.old (record { key = key.now; value = option_map (λ v. v.now) value.entry })) }
    ensures names { facts.new.names ≡ facts.old.names }
    ensures refused { IfOk result (λ why. why ≡ spec.refused facts.old.names (record { key = key.now; value = option_map (λ v. v.now) value.entry })) }
{
    let value = bytes(value);
    match kind {
        kinds::INODE => add_inode(&mut facts.inodes, id, value),
        kinds::ATTRIBUTE => add_attribute(alloc, &mut facts.attributes, id, key, value),
        kinds::SIBLING_LINK => add_link(alloc, &mut facts.links, id, key, value),
        kinds::FILE_EXTENT => add_extent(&mut facts.extents, id, key, value),
        kinds::ENTRY => add_entry(alloc, &mut facts.entries, facts.names, id, key, value),
        kinds::SIBLING_MAP => add_sibling(&mut facts.siblings, id, value),
        _ => Ok(None),
    }
}

// Whether records of a kind say something of files: those of inodes and of entries.
fn is_of_files(kind: u8) -> bool
    ensures { result ≡ is_file_record kind }
{
    kind == kinds::INODE || kind == kinds::ENTRY
}

// Adds the inode or the entry of a record, or tells why its reader refuses it; other records are only read.
#[tactic(auto, using(bt_keys::proofs::FsKeys::kind_read, bt_keys::proofs::FsKeys::id_read))]
fn add_file<K: FsTreeKey>(
    alloc: Global,
    facts: &mut Facts,
    pair: &Entry<'_, K>,
) -> Result<Option<RecFault>, NoMemory>
    requires hashed { are_hashed facts.old.names ≡ K.HASHED }
    requires read { K.shape.read pair.now.key_bytes.now ≡ Some pair.now.key }
    ensures facts { OnOk result (facts.new ≡ facts_with true facts.old (record { key = pair.now.key_bytes.now; value = option_map (λ v. v.now) pair.now.value })) }
    ensures names { facts.new.names ≡ facts.old.names }
    ensures refused { IfOk result (λ why. why ≡ spec.refused facts.old.names (record { key = pair.now.key_bytes.now; value = option_map (λ v. v.now) pair.now.value })) }
{
    let kind = pair.key.kind();
    if is_of_files(kind) {
        add(
            alloc,
            facts,
            kind,
            pair.key.id(),
            pair.key_bytes,
            pair.value,
        )
    } else {
        Ok(refused::<K>(facts.names, pair))
    }
}

/// Adds what is kept of a record to the facts, or tells why its reader refuses it.
#[tactic(auto, using(bt_keys::proofs::FsKeys::kind_read, bt_keys::proofs::FsKeys::id_read))]
pub fn add_record<K: FsTreeKey>(
    alloc: Global,
    facts: &mut Facts,
    pair: &Entry<'_, K>,
) -> Result<Option<RecFault>, NoMemory>
    requires hashed { are_hashed facts.old.names ≡ K.HASHED }
    requires read { K.shape.read pair.now.key_bytes.now ≡ Some pair.now.key }
    ensures facts { OnOk result (facts.new ≡ facts_with false facts.old (record { key = pair.now.key_bytes.now; value = option_map (λ v. v.now) pair.now.value })) }
    ensures names { facts.new.names ≡ facts.old.names }
    ensures refused { IfOk result (λ why. why ≡ spec.refused facts.old.names (record { key = pair.now.key_bytes.now; value = option_map (λ v. v.now) pair.now.value })) }
{
    add(
        alloc,
        facts,
        pair.key.kind(),
        pair.key.id(),
        pair.key_bytes,
        pair.value,
    )
}

/// Adds what is kept of a record to the facts, or to those of files alone, or tells why its reader refuses it.
pub(crate) fn add_kept<K: FsTreeKey, W: Scope>(
    alloc: Global,
    facts: &mut Facts,
    pair: &Entry<'_, K>,
) -> Result<Option<RecFault>, NoMemory>
    requires hashed { are_hashed facts.old.names ≡ K.HASHED }
    requires read { K.shape.read pair.now.key_bytes.now ≡ Some pair.now.key }
    ensures facts { OnOk result (facts.new ≡ facts_with W.FILES facts.old (record { key = pair.now.key_bytes.now; value = option_map (λ v. v.now) pair.now.value })) }
    ensures names { facts.new.names ≡ facts.old.names }
    ensures refused { IfOk result (λ why. why ≡ spec.refused facts.old.names (record { key = pair.now.key_bytes.now; value = option_map (λ v. v.now) pair.now.value })) }
{
    if W::FILES {
        return add_file::<K>(alloc, facts, pair);
    }
    add_record::<K>(alloc, facts, pair)
}
