// Inodes (File-System Objects, j_inode_val_t).
ghost use Rattle.std.specs.Prelude.{◌≡◌, ◌≤◌, ◌+◌, IfOk, IsNone, drop, length, replicate, take, vec_len};
ghost use Rattle.img_plan.specs.Records.{IsInodeFront, IsInodeValue, IsShortKey, IsStreamBytes, IsStreamField};

use super::fields::{ONE_FIELD, put_field_at};
use super::keys::{Item, both, key, zeros};
use apfs_layout::key::{INODE, RECORD_LEN};
use apfs_layout::record::{
    FIELD_STREAM, INODE_BSD_FLAGS, INODE_FLAGS, INODE_LEN, INODE_LINKS, INODE_MODE, INODE_PARENT,
    INODE_PRIVATE_ID, STREAM_ALLOCATED, STREAM_LEN, STREAM_SIZE,
};
use img_edit::{put_u16, put_u32, put_u64};
use std::alloc::{AllocError, Global};

/// The mode of a directory that all may read and its owner may write.
pub const DIRECTORY_MODE: u16 = 0x41ed;

/// The mode of a regular file that all may read and its owner may write.
pub const FILE_MODE: u16 = 0x81a4;

/// The mode of a symbolic link.
pub const LINK_MODE: u16 = 0xa1ed;

/// What an inode says.
#[derive(Clone, Copy)]
pub struct InodePlan {
    pub id: u64,
    pub parent: u64,
    /// The bits of its state.
    pub flags: u64,
    /// How many entries a directory has, or how many a file has that name it.
    pub children_or_links: u32,
    /// The flags that a user sets.
    pub bsd_flags: u32,
    /// The kind in the high 4 bits, and who may read and write.
    pub mode: u16,
    /// The size of its stream in bytes, where it has one.
    pub stream: Option<u64>,
}

impl InodePlan {
    ghost use Rattle.img_plan.specs.Records.{directory_of, file_of};

    /// A directory without entries.
    pub fn directory(id: u64, parent: u64) -> InodePlan
        ensures { result ≡ directory_of id parent }
    {
        InodePlan {
            id,
            parent,
            flags: 0,
            children_or_links: 0,
            bsd_flags: 0,
            mode: DIRECTORY_MODE,
            stream: None,
        }
    }

    /// A regular file with one name and without a stream.
    pub fn file(id: u64, parent: u64) -> InodePlan
        ensures { result ≡ file_of id parent }
    {
        InodePlan {
            id,
            parent,
            flags: 0,
            children_or_links: 1,
            bsd_flags: 0,
            mode: FILE_MODE,
            stream: None,
        }
    }
}

// A stream of so many bytes, of which whole blocks of 4,096 bytes are allocated (Data Streams, j_dstream_t), in bytes
// that are zeros.
fn put_stream(field: &mut [u8], size: u64)
    requires len { length field.old ≡ 40 }
    requires zeros { drop 16 field.old ≡ replicate 24 0 }
    ensures { IsStreamBytes size field.new }
{
    put_u64(field, STREAM_SIZE, size);
    put_u64(
        field,
        STREAM_ALLOCATED,
        size.div_ceil(4096).saturating_mul(4096),
    );
}

// The extended field of a stream in the bytes after the fixed part of an inode's value.
fn put_stream_field(value: &mut [u8], size: u64)
    requires { length value.old ≡ 140 }
    ensures field { IsStreamField size (drop 92 value.new) }
    ensures front { take 92 value.new ≡ take 92 value.old }
{
    let mut field = [0u8; STREAM_LEN];
    put_stream(&mut field, size);
    put_field_at(value, INODE_LEN, FIELD_STREAM, &field);
}

// The fixed part of an inode's value, in bytes that are zeros.
fn put_inode(value: &mut [u8], plan: &InodePlan)
    requires len { 92 ≤ length value.old }
    requires zeros { take 92 value.old ≡ replicate 92 0 }
    ensures { IsInodeFront plan.now value.new }
{
    put_u64(value, INODE_PARENT, plan.parent);
    put_u64(value, INODE_PRIVATE_ID, plan.id);
    put_u64(value, INODE_FLAGS, plan.flags);
    put_u32(value, INODE_LINKS, plan.children_or_links);
    put_u32(value, INODE_BSD_FLAGS, plan.bsd_flags);
    put_u16(value, INODE_MODE, plan.mode);
}

// The fixed part of an inode's value, with so many bytes after it.
fn inode_front(alloc: Global, plan: &InodePlan, more: usize) -> Result<Vec<u8>, AllocError>
    requires { more ≤ 100 }
    ensures len { IfOk result (λ value. vec_len value ≡ 92 + more) }
    ensures front { IfOk result (λ value. IsInodeFront plan.now value.items) }
{
    let mut value = zeros(alloc, INODE_LEN + more)?;
    put_inode(&mut value, plan);
    Ok(value)
}

// The value of an inode.
fn inode_value(alloc: Global, plan: &InodePlan) -> Result<Vec<u8>, AllocError>
    ensures value { IfOk result (λ value. IsInodeValue plan.now value.items) }
    ensures len { IsNone plan.now.stream → IfOk result (λ value. vec_len value ≡ 92) }
{
    let Some(size) = plan.stream else {
        return inode_front(alloc, plan, 0);
    };
    let mut value = inode_front(alloc, plan, ONE_FIELD + STREAM_LEN)?;
    put_stream_field(&mut value, size);
    Ok(value)
}

/// The record of an inode. Its private id is its own.
pub fn inode(alloc: Global, plan: &InodePlan) -> Result<Item, AllocError>
    ensures key { IfOk result (λ item. IsShortKey plan.now.id 3 item.0.items) }
    ensures value { IfOk result (λ item. IsInodeValue plan.now item.1.items) }
    ensures key_len { IfOk result (λ item. vec_len item.0 ≡ 8) }
    ensures value_len { IsNone plan.now.stream → IfOk result (λ item. vec_len item.1 ≡ 92) }
{
    both(
        key(alloc, plan.id, INODE, RECORD_LEN),
        inode_value(alloc, plan),
    )
}
