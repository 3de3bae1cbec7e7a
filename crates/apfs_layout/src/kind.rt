// The kinds of objects (Objects, Object Types): the low 16 bits of a type, or a subtype.

pub const CONTAINER: u16 = 1;

pub const TREE_ROOT: u16 = 2;

pub const TREE_NODE: u16 = 3;

pub const SPACE_MANAGER: u16 = 5;

pub const CHUNK_ADDRESSES: u16 = 6;

pub const CHUNK_INFO: u16 = 7;

pub const FREE_QUEUE: u16 = 9;

pub const OBJECT_MAP: u16 = 0xb;

pub const CHECKPOINT_MAP: u16 = 0xc;

pub const VOLUME: u16 = 0xd;

pub const FILE_SYSTEM: u16 = 0xe;

pub const EXTENT_REFERENCES: u16 = 0xf;

pub const SNAPSHOT_METADATA: u16 = 0x10;

pub const REAPER: u16 = 0x11;

pub const REAP_LIST: u16 = 0x12;

pub const MAP_SNAPSHOTS: u16 = 0x13;

pub const JUMPSTART: u16 = 0x14;

pub const EXTENDED_METADATA: u16 = 0x1d;
