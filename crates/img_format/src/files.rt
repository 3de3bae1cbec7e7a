// The root of a volume's files, which has the root directory and the private directory.
ghost use Rattle.std.specs.Prelude.{◌≡◌, ◌++◌, OnOk};
ghost use Rattle.img_format.specs.Blocks as is;

use crate::field::BLOCK;
use crate::field::Value::{Bytes, U16, U32, U64};
use crate::object::{Head, VIRTUAL, add_object};
use crate::places::FILES_ID;
use crate::roots::{END, VARIABLE_ROOT};
use apfs_layout::key::{ENTRY, HASH_UNIT, HASHED_NAME, INODE, KIND_UNIT, LEN_AND_HASH, RECORD_LEN};
use apfs_layout::kind::{FILE_SYSTEM, TREE_ROOT};
use apfs_layout::node::{
    COUNT, FLAGS, KEY_COUNT, LEVEL, NODE_COUNT, NODE_SIZE, TABLE, TABLE_LENGTH, TABLE_OFFSET,
    VARIABLE_ENTRY_LEN,
};
use apfs_layout::record::{
    ENTRY_FILE_ID, ENTRY_FLAGS, ENTRY_LEN, INODE_LEN, INODE_MODE, INODE_PARENT, INODE_PRIVATE_ID,
};
use std::alloc::{AllocError, Global};

// The ids of the directory above both, of the root and of the private directory.
const ABOVE: u64 = 1;

const ROOT: u64 = 2;

const PRIVATE: u64 = 3;

// The names of both, which end with a zero that counts, and the hashes of the names.
const ROOT_NAME: &[u8] = b"root\0";

const ROOT_HASH: u32 = 0x2d_9c79;

const PRIVATE_NAME: &[u8] = b"private-dir\0";

const PRIVATE_HASH: u32 = 0x2b_29a3;

// The kind of a directory in an entry, and the mode of a directory that all may read and its owner may write.
const DIRECTORY: u16 = 4;

const DIRECTORY_MODE: u16 = 0x41ed;

// Where the four keys lie, one after another.
const PRIVATE_KEY: usize = TABLE + 4 * VARIABLE_ENTRY_LEN;

const PRIVATE_KEY_LEN: usize = HASHED_NAME + 12;

const ROOT_KEY: usize = PRIVATE_KEY + PRIVATE_KEY_LEN;

const ROOT_KEY_LEN: usize = HASHED_NAME + 5;

const ROOT_INODE_KEY: usize = ROOT_KEY + ROOT_KEY_LEN;

const PRIVATE_INODE_KEY: usize = ROOT_INODE_KEY + RECORD_LEN;

// Where the four values lie, each before the one of the key before.
const PRIVATE_VALUE: usize = END - ENTRY_LEN;

const ROOT_VALUE: usize = PRIVATE_VALUE - ENTRY_LEN;

const ROOT_INODE: usize = ROOT_VALUE - INODE_LEN;

const PRIVATE_INODE: usize = ROOT_INODE - INODE_LEN;

// The first number of a key: an id and a kind.
const ENTRY_KEY: u64 = ABOVE + ENTRY as u64 * KIND_UNIT;

const INODE_KIND: u64 = INODE as u64 * KIND_UNIT;

/// Adds the root of the volume's files.
pub(crate) fn add_files(front: &mut Vec<u8>, alloc: Global) -> Result<(), AllocError>
    ensures { OnOk result (front.new.items ≡ front.old.items ++ is.files) }
{
    let fields = [
        (FLAGS, U16(VARIABLE_ROOT)),
        (LEVEL, U16(0)),
        (COUNT, U32(4)),
        (TABLE_OFFSET, U16(0)),
        (TABLE_LENGTH, U16(4 * VARIABLE_ENTRY_LEN as u16)),
        // The table: for each record where its key and its value lie, and how long they are.
        (TABLE, U16(0)),
        (TABLE + 2, U16(PRIVATE_KEY_LEN as u16)),
        (TABLE + 4, U16((END - PRIVATE_VALUE) as u16)),
        (TABLE + 6, U16(ENTRY_LEN as u16)),
        (TABLE + 8, U16((ROOT_KEY - PRIVATE_KEY) as u16)),
        (TABLE + 10, U16(ROOT_KEY_LEN as u16)),
        (TABLE + 12, U16((END - ROOT_VALUE) as u16)),
        (TABLE + 14, U16(ENTRY_LEN as u16)),
        (TABLE + 16, U16((ROOT_INODE_KEY - PRIVATE_KEY) as u16)),
        (TABLE + 18, U16(RECORD_LEN as u16)),
        (TABLE + 20, U16((END - ROOT_INODE) as u16)),
        (TABLE + 22, U16(INODE_LEN as u16)),
        (TABLE + 24, U16((PRIVATE_INODE_KEY - PRIVATE_KEY) as u16)),
        (TABLE + 26, U16(RECORD_LEN as u16)),
        (TABLE + 28, U16((END - PRIVATE_INODE) as u16)),
        (TABLE + 30, U16(INODE_LEN as u16)),
        // The keys.
        (PRIVATE_KEY, U64(ENTRY_KEY)),
        (
            PRIVATE_KEY + LEN_AND_HASH,
            U32(12 + PRIVATE_HASH * HASH_UNIT),
        ),
        (PRIVATE_KEY + HASHED_NAME, Bytes(PRIVATE_NAME)),
        (ROOT_KEY, U64(ENTRY_KEY)),
        (ROOT_KEY + LEN_AND_HASH, U32(5 + ROOT_HASH * HASH_UNIT)),
        (ROOT_KEY + HASHED_NAME, Bytes(ROOT_NAME)),
        (ROOT_INODE_KEY, U64(ROOT + INODE_KIND)),
        (PRIVATE_INODE_KEY, U64(PRIVATE + INODE_KIND)),
        // The values, the first one last.
        (PRIVATE_INODE + INODE_PARENT, U64(ABOVE)),
        (PRIVATE_INODE + INODE_PRIVATE_ID, U64(PRIVATE)),
        (PRIVATE_INODE + INODE_MODE, U16(DIRECTORY_MODE)),
        (ROOT_INODE + INODE_PARENT, U64(ABOVE)),
        (ROOT_INODE + INODE_PRIVATE_ID, U64(ROOT)),
        (ROOT_INODE + INODE_MODE, U16(DIRECTORY_MODE)),
        (ROOT_VALUE + ENTRY_FILE_ID, U64(ROOT)),
        (ROOT_VALUE + ENTRY_FLAGS, U16(DIRECTORY)),
        (PRIVATE_VALUE + ENTRY_FILE_ID, U64(PRIVATE)),
        (PRIVATE_VALUE + ENTRY_FLAGS, U16(DIRECTORY)),
        (END + NODE_SIZE, U32(BLOCK as u32)),
        (END + KEY_COUNT, U64(4)),
        (END + NODE_COUNT, U64(1)),
    ];
    let head = Head {
        oid: FILES_ID,
        storage: VIRTUAL,
        kind: TREE_ROOT,
        subtype: FILE_SYSTEM,
    };
    add_object(front, alloc, &head, &fields)
}
