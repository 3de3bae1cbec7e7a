// The cases: what a run is handed, and how it ends. Their lines were worked out by hand.
use crate::tests::images::Image::*;
use crate::tests::images::*;
use Ends::*;
use apfs_layout::chunk_info::{CHUNK_BITMAP, CIB_ENTRIES};
use apfs_layout::{container, node, object, object_map, space_manager, volume};
use img_make::Change::{Bare, Put};
use img_make::cases::{QUEUED, SNAPSHOTS as TWO_SNAPSHOTS};
use img_make::{SMALL, Sample, table};

// A case: its name, what a run is handed, and how it ends.
pub type Case = (&'static str, Image, &'static [&'static str], Ends);

// How a run ends: with a text on the first sink, or with a line on the second.
#[derive(Clone, Copy)]
pub enum Ends {
    Wrote(&'static str),
    Faulty(&'static str),
    Usage,
    Refused(&'static str),
    Answered(&'static str),
    NoImage,
    NoFolder,
}

impl Ends {
    // The status, what is written on the first sink, and what on the second.
    pub fn said(self) -> (u8, &'static str, &'static str) {
        match self {
            Wrote(text) => (0, text, ""),
            Faulty(line) => (1, "", line),
            Usage => (2, "", "apfs: usage: apfs COMMAND IMAGE [WORDS]\n"),
            Refused(line) => (6, "", line),
            Answered(line) => (7, "", line),
            NoImage => (8, "", NO_IMAGE),
            NoFolder => (9, "", "apfs: no folder\n"),
        }
    }
}

pub const NOT_FOUND: &str = "apfs: answer: NotFound\n";

pub const NOT_DIRECTORY: &str = "apfs: answer: NotDirectory\n";

pub const NO_SNAPSHOT: &str = "apfs: answer: NoSnapshot\n";

pub const HELLO_LINE: &str = "- 16 5 hello.txt\n";

pub const LS: &[&str] = &["ls", "x", "/", "--quick"];

pub const TREE: &[&str] = &["tree", "x", "/", "--quick"];

pub const LS_OLD: &[&str] = &["ls", "x", "/", "--snapshot", "s2", "--quick"];

pub const TREE_OLD: &[&str] = &["tree", "x", "--snapshot=s2", "/", "--quick"];

// A directory with an empty file.
pub const FOLDER: Image = Files(&[(2, 16, 4, "d"), (16, 17, 8, "f")]);

// Two empty files whose names are alike.
pub const ALIKE: Image = Files(&[(2, 16, 8, "a"), (2, 17, 8, "A")]);

// A directory that is named by the root and in itself.
pub const NAMED_TWICE: Image = Named(&[(2, 16, 4, "d")], &[(16, 16, "d")]);

// A directory with two names in the root.
pub const TWO_NAMES: Image = Named(&[(2, 16, 4, "c")], &[(2, 16, "d")]);

// The superblock of the container with two snapshots names its volume in slot 3.
const VIEWS_LATER: Image = Made(
    TWO_SNAPSHOTS,
    &[
        Put(SUPERBLOCK, container::FS_OID, &[0, 0]),
        Put(SUPERBLOCK, container::FS_OID + 3 * 8, &[2, 4]),
    ],
);

// A container with two volumes, and the keys of the records of its map, of 16 bytes each, are exchanged.
const EXCHANGED: Image = Made(
    (Sample::T, &[], &[]),
    &[
        Put(MAP_TREE, node::TABLE, &[16, 0]),
        Put(MAP_TREE, node::TABLE + 4, &[0, 0]),
    ],
);

pub const SPACE_QUEUED_LINES: &str =
    "blocks 256 free 198\nchunk 0 blocks 256 free 198 bitmap 44\npool blocks 8 free 6\nqueue pool entries 0 blocks 0\nqueue main entries 1 blocks 1\n";

pub const NO_IMAGE: &str = "apfs: no image\n";

pub const RING_LINES: &str =
    "1 block 2 xid 9 from 0 length 2\n5 block 6 xid 7 from 4 length 2\n7 block 8 xid 8 from 6 length 2\n";

pub const INFO_LINES: &str =
    "uuid 00112233-4455-6677-8899-aabbccddeeff\nblock size 4096\nblocks 256\ncheckpoint xid 1 block 2\nmaps 1 objects 4\nskipped 0\n";

pub const SKIPPED_LINES: &str =
    "uuid 00112233-4455-6677-8899-aabbccddeeff\nblock size 4096\nblocks 256\ncheckpoint xid 1 block 2\nmaps 1 objects 4\nskipped 1\n";

pub const RING: &[&str] = &["ring", "x"];

pub const INFO: &[&str] = &["info", "x"];

pub const VOLUMES: &[&str] = &["volumes", "x"];

pub const SPACE: &[&str] = &["space", "x"];

pub const SPACE_LINES: &str =
    "blocks 256 free 199\nchunk 0 blocks 256 free 199 bitmap 44\npool blocks 8 free 6\nqueue pool entries 0 blocks 0\nqueue main entries 0 blocks 0\n";

pub const SNAPSHOTS: &[&str] = &["snapshots", "x"];

pub const VIEWS_LINES: &str = "2 0 s2\n4 0 s4\n";

pub const NO_VOLUME: &str = "apfs: answer: NoVolume\n";

pub const SMALL_LINE: &str = "0 ffeeddcc-bbaa-9988-7766-554433221100 0 folded 0 Small\n";

pub const RENAMED_LINE: &str = "0 ffeeddcc-bbaa-9988-7766-554433221100 0 folded 0 a\\x0ab\\x2f\n";

pub const CASES: &[Case] = table! {
    "clean_ring", Ring, RING, Wrote(RING_LINES);
    "fault_truncated", RingCut, RING, Faulty("apfs: fault: Truncated have 255 need 256\n");
    "fault_block_zero_short", RingShort, RING, Faulty("apfs: fault: BlockZero\n");
    "fault_truncated_info", SmallCutSplit, INFO, Faulty("apfs: fault: Truncated have 255 need 256\n");
    "fault_truncated_volumes", SmallCutSplit, VOLUMES, Faulty("apfs: fault: Truncated have 255 need 256\n");
    "feature_non_contiguous_volumes", SmallChanged(0, container::DESC_BLOCKS + 3, &[0x80]), VOLUMES, Refused("apfs: unsupported: NonContiguous block 0\n");
    "feature_non_contiguous", RingSplit, RING, Refused("apfs: unsupported: NonContiguous block 0\n");
    "words_none", Absent, &[], Usage;
    "words_ring_alone", Absent, &["ring"], Usage;
    "words_ring_three", Ring, &["ring", "x", "y"], Usage;
    "words_unknown", Ring, &["checks", "x"], Usage;
    "words_info_three", Empty, &["info", "x", "y"], Usage;
    "answer_no_image", Absent, RING, NoImage;
    "answer_no_image_info", Absent, INFO, NoImage;
    "clean_info", Empty, INFO, Wrote(INFO_LINES);
    "clean_info_skipped", EmptySkipped, INFO, Wrote(SKIPPED_LINES);
    "fault_no_checkpoint", EmptyUnsummed, INFO, Faulty("apfs: fault: NoCheckpoint\n");
    "feature_fusion", EmptyFeatures(0x102), INFO, Refused("apfs: unsupported: Fusion block 2\n");
    "feature_version", EmptyFeatures(0), INFO, Refused("apfs: unsupported: Version block 2\n");
    "feature_unknown_container", EmptyFeatures(0x402), INFO, Refused("apfs: unsupported: UnknownContainer block 2\n");
    "feature_resizing", EmptyResizing, INFO, Refused("apfs: unsupported: Resizing block 2\n");
    "fault_block_zero_info", RingShort, INFO, Faulty("apfs: fault: BlockZero\n");
};

// Those of `volumes`.
pub const LIST_CASES: &[Case] = table! {
    "clean_volumes", Small, VOLUMES, Wrote(SMALL_LINE);
    "clean_volumes_none", Empty, VOLUMES, Wrote("");
    "clean_volumes_flagless", SmallChanged(VOLUME, volume::FS_FLAGS, &[0]), VOLUMES, Wrote(SMALL_LINE);
    "clean_volumes_renamed", SmallChanged(VOLUME, volume::NAME, b"a\nb/\0"), VOLUMES, Wrote(RENAMED_LINE);
    "fault_unnamed_volume", SmallChanged(MAP_TREE, ONLY_VALUE, &[1]), VOLUMES, Faulty("apfs: fault: Unnamed container oid 1026 xid 1\n");
    "fault_unsound_volume", Made(SMALL, &[Bare(VOLUME, object::SUM, &[0, 0])]), VOLUMES, Faulty("apfs: fault: Unsound block 51 BadSum\n");
    "fault_magic_volume", SmallChanged(VOLUME, volume::MAGIC, b"NXSB"), VOLUMES, Faulty("apfs: fault: Unsound block 51 Magic\n");
};

// Those of features, and of words.
pub const FEATURE_CASES: &[Case] = table! {
    "feature_container_snapshots", SmallChanged(MAP, object_map::SNAP_COUNT, &[1]), VOLUMES,
        Refused("apfs: unsupported: ContainerSnapshots block 25\n");
    "feature_revert", SmallChanged(MAP, object_map::REVERT_MIN, &[1]), VOLUMES, Refused("apfs: unsupported: Revert block 25\n");
    "feature_encrypted", SmallChanged(MAP_TREE, ONLY_VALUE, &[4]), VOLUMES, Refused("apfs: unsupported: Encrypted block 51\n");
    "feature_no_header", SmallChanged(MAP_TREE, ONLY_VALUE, &[8]), VOLUMES, Refused("apfs: unsupported: NoHeader block 51\n");
    "feature_size", SmallChanged(MAP_TREE, ONLY_VALUE + 4, &[0, 32]), VOLUMES, Refused("apfs: unsupported: Size block 51\n");
    "feature_sealed", SmallChanged(MAP_TREE, node::FLAGS, &[15]), VOLUMES, Refused("apfs: unsupported: Sealed block 26\n");
    "feature_deep", SmallChanged(MAP_TREE, node::FLAGS, &[5, 0, 16]), VOLUMES, Refused("apfs: unsupported: Deep block 26\n");
    "fault_tree_counts", SmallChanged(MAP_TREE, ROOT_KEY_COUNT, &[2]), VOLUMES, Faulty("apfs: fault: Counts root 26\n");
    "fault_tree_order", EXCHANGED, VOLUMES, Faulty("apfs: fault: Order root 26 item 1\n");
    "fault_bad_kind", SmallChanged(VOLUME, object::TYPE, &[14]), VOLUMES, Faulty("apfs: fault: Unsound block 51 BadKind\n");
    "fault_bad_subtype", SmallChanged(MAP_TREE, object::SUBTYPE, &[12]), VOLUMES, Faulty("apfs: fault: Unsound block 26 BadSubtype\n");
    "fault_bad_oid", SmallChanged(VOLUME, object::OID, &[3]), VOLUMES, Faulty("apfs: fault: Unsound block 51 BadOid\n");
    "fault_bad_xid", SmallChanged(VOLUME, object::XID, &[2]), VOLUMES, Faulty("apfs: fault: Unsound block 51 BadXid\n");
    "fault_node_flags", SmallChanged(MAP_TREE, node::FLAGS, &[5]), VOLUMES, Faulty("apfs: fault: Unsound block 26 Flags\n");
    "fault_node_bounds", SmallChanged(MAP_TREE, node::TABLE_LENGTH + 1, &[16]), VOLUMES, Faulty("apfs: fault: Unsound block 26 Bounds\n");
    "fault_node_empty", SmallChanged(MAP_TREE, node::FLAGS, &[5, 0, 1, 0, 0]), VOLUMES, Faulty("apfs: fault: Unsound block 26 Empty\n");
    "fault_node_ghost", SmallChanged(MAP_TREE, node::TABLE + 2, &[255, 255]), VOLUMES, Faulty("apfs: fault: Unsound block 26 Ghost\n");
};

// Those of `snapshots`.
pub const VOLUME_CASES: &[Case] = table! {
    "words_snapshots_twice", Views, &["snapshots", "x", "--volume", "0", "--volume=0"], Usage;
    "answer_no_image_snapshots", Absent, SNAPSHOTS, NoImage;
    "clean_snapshots", Views, SNAPSHOTS, Wrote(VIEWS_LINES);
    "clean_snapshots_none", Small, SNAPSHOTS, Wrote("");
    "clean_snapshots_volume", Views, &["snapshots", "x", "--volume=0"], Wrote(VIEWS_LINES);
    "clean_snapshots_later_slot", VIEWS_LATER, SNAPSHOTS, Wrote(VIEWS_LINES);
    "answer_no_volume", Hello, &["snapshots", "x", "--volume", "7"], Answered(NO_VOLUME);
    "answer_no_volume_below", VIEWS_LATER, &["snapshots", "x", "--volume=0"], Answered(NO_VOLUME);
    "answer_no_volume_at_all", Empty, SNAPSHOTS, Answered(NO_VOLUME);
    "fault_truncated_snapshots", SmallCutSplit, SNAPSHOTS, Faulty("apfs: fault: Truncated have 255 need 256\n");
    "fault_snap_count", ViewsChanged(VOLUME, volume::SNAPSHOTS, &[3]), SNAPSHOTS, Faulty("apfs: fault: Volume 0 SnapCount\n");
    "fault_snap_record", ViewsChanged(SNAPS_TREE, FIRST_NAME, b"s2s"), SNAPSHOTS, Faulty("apfs: fault: Volume 0 SnapRecord\n");
    "fault_snap_name", ViewsChanged(SNAPS_TREE, FIRST_NAME, b"t2"), SNAPSHOTS, Faulty("apfs: fault: Volume 0 SnapName\n");
    "fault_omap_snaps", ViewsChanged(VOLUME_MAP, object_map::SNAP_COUNT, &[3]), SNAPSHOTS, Faulty("apfs: fault: Volume 0 OmapSnaps\n");
    "feature_restore", SmallChanged(VOLUME, volume::INCOMPAT, &[0x11]), SNAPSHOTS, Refused("apfs: unsupported: Restore block 51\n");
    "feature_unknown_volume", SmallChanged(VOLUME, volume::INCOMPAT, &[0x41]), SNAPSHOTS, Refused("apfs: unsupported: UnknownVolume block 51\n");
    "feature_storage", SmallChanged(VOLUME, volume::ROOT_TYPE + 3, &[0x40]), SNAPSHOTS, Refused("apfs: unsupported: Storage block 51\n");
    "feature_snapshot_state", ViewsChanged(SNAPS_TREE, FIRST_FLAGS, &[2]), SNAPSHOTS, Refused("apfs: unsupported: SnapshotState block 60\n");
    "feature_dataless", ViewsChanged(SNAPS_TREE, SECOND_FLAGS, &[1]), SNAPSHOTS, Refused("apfs: unsupported: Dataless block 62\n");
    "feature_encrypted_volume", SmallChanged(VOLUME, volume::FS_FLAGS, &[0]), SNAPSHOTS, Refused("apfs: unsupported: Encrypted block 51\n");
    "feature_later_tree", SmallChanged(VOLUME, volume::RESERVED, &[7]), SNAPSHOTS, Refused("apfs: unsupported: LaterTree block 51\n");
};

// Those of `space`.
pub const SPACE_CASES: &[Case] = table! {
    "clean_space", Small, SPACE, Wrote(SPACE_LINES);
    "answer_no_image_space", Absent, SPACE, NoImage;
    "fault_no_checkpoint_space", EmptyUnsummed, SPACE, Faulty("apfs: fault: NoCheckpoint\n");
    "fault_space_geometry", SmallChanged(MANAGER, space_manager::BLOCKS_PER_CHUNK, &[0xf8, 0x7f]), SPACE, Faulty("apfs: fault: Space Geometry\n");
    "fault_space_place", SmallChanged(CHUNK_INFO, CIB_ENTRIES + CHUNK_BITMAP, &[200]), SPACE, Faulty("apfs: fault: Space Place 200\n");
    "fault_space_free_total", SmallChanged(MANAGER, space_manager::MAIN_FREE, &[198]), SPACE, Faulty("apfs: fault: Space FreeTotal\n");
    "fault_pool_index", SmallChanged(MANAGER, POOL_INDEX, &[16]), SPACE, Faulty("apfs: fault: Pool Index 0\n");
};

// Those of the commands on one view.
pub const VIEW_CASES: &[Case] = table! {
    "words_ls_alone", Hello, &["ls", "x"], Usage;
    "words_ls_stray", Hello, &["ls", "x", "/", "y"], Usage;
    "answer_no_image_ls", Absent, LS, NoImage;
    "answer_no_image_tree", Absent, TREE, NoImage;
    "clean_ls_none", Small, LS, Wrote("");
    "clean_ls_empty_path", Hello, &["ls", "x", "", "--quick"], Wrote(HELLO_LINE);
    "clean_ls_file", Hello, &["ls", "x", "/hello.txt", "--quick"], Wrote(HELLO_LINE);
    "clean_ls_newline", Files(&[(2, 16, 8, "a\nb")]), LS, Wrote("- 16 0 a\\x0ab\n");
    "clean_ls_normal_form", Files(&[(2, 16, 8, "ReadMe")]), &["ls", "x", "/README", "--quick"], Wrote("- 16 0 ReadMe\n");
    "clean_ls_same_bytes", ALIKE, &["ls", "x", "/A", "--quick"], Wrote("- 17 0 A\n");
    "clean_ls_same_bytes_first", ALIKE, &["ls", "x", "/a", "--quick"], Wrote("- 16 0 a\n");
    "clean_ls_by_name", ALIKE, LS, Wrote("- 17 0 A\n- 16 0 a\n");
    "clean_ls_kinds", Files(&[(2, 16, 4, "a"), (2, 17, 10, "b"), (2, 18, 1, "c"), (2, 19, 2, "d"), (2, 20, 6, "e"), (2, 21, 12, "f"), (2, 22, 14, "g"), (2, 23, 9, "h")]), LS,
        Wrote("d 16 0 a\nl 17 0 b\np 18 0 c\nc 19 0 d\nb 20 0 e\ns 21 0 f\nw 22 0 g\n? 23 0 h\n");
    "clean_ls_live", Views, LS, Wrote("- 16 0 new\n");
    "clean_ls_snapshot_old", Views, LS_OLD, Wrote("- 16 0 old\n");
    "clean_ls_snapshot_new", Views, &["ls", "x", "/", "--volume=0", "--snapshot", "s4", "--quick"], Wrote("- 16 0 new\n");
    "answer_not_found", Hello, &["ls", "x", "/x", "--quick"], Answered(NOT_FOUND);
    "answer_not_directory", Hello, &["ls", "x", "/hello.txt/x", "--quick"], Answered(NOT_DIRECTORY);
    "answer_no_volume_ls", Hello, &["ls", "x", "/", "--volume", "7", "--quick"], Answered(NO_VOLUME);
    "answer_no_snapshot", Hello, &["ls", "x", "/", "--snapshot", "x", "--quick"], Answered(NO_SNAPSHOT);
    "answer_no_snapshot_prefix", Views, &["tree", "x", "/", "--snapshot", "s", "--quick"], Answered(NO_SNAPSHOT);
    "feature_later_tree_ls", SmallChanged(VOLUME, volume::RESERVED, &[7]), LS, Refused("apfs: unsupported: LaterTree block 51\n");
    "fault_truncated_ls", SmallCutSplit, LS, Faulty("apfs: fault: Truncated have 255 need 256\n");
};

// Those of `tree`, and what both find wrong.
pub const TREE_CASES: &[Case] = table! {
    "clean_tree_folder", FOLDER, TREE, Wrote("d 16 0 d\n- 17 0 d/f\n");
    "clean_tree_below", FOLDER, &["tree", "x", "d", "--quick"], Wrote("- 17 0 f\n");
    "clean_tree_file", FOLDER, &["tree", "x", "/d/f", "--quick"], Wrote("- 17 0 f\n");
    "clean_tree_snapshot", Views, TREE_OLD, Wrote("- 16 0 old\n");
    "answer_not_found_tree", FOLDER, &["tree", "x", "/f", "--quick"], Answered(NOT_FOUND);
    "fault_dir_names_within", NAMED_TWICE, TREE, Faulty("apfs: fault: DirNames volume 0 view 1 id 16\n");
    "fault_dir_names_path", NAMED_TWICE, &["tree", "x", "/d", "--quick"], Faulty("apfs: fault: DirNames volume 0 view 1 id 16\n");
    "fault_dir_names_beside", TWO_NAMES, TREE, Faulty("apfs: fault: DirNames volume 0 view 1 id 16\n");
    "fault_view_order", Backwards, TREE, Faulty("apfs: fault: Order volume 0 view 1 item 1\n");
    "fault_view_counts", SmallChanged(FILES_TREE, ROOT_KEY_COUNT, &[5]), TREE, Faulty("apfs: fault: Counts volume 0 view 1\n");
    "fault_view_unsound", SmallChanged(FILES_TREE, object::SUBTYPE, &[15]), LS, Faulty("apfs: fault: Unsound block 54 BadSubtype\n");
    "fault_record_length", ShortInode, TREE, Faulty("apfs: fault: Record volume 0 view 1 item 4 Length\n");
    "clean_ls_record_unneeded", ShortInode, LS, Wrote("");
    "fault_no_inode", Named(&[], &[(2, 17, "e")]), LS, Faulty("apfs: fault: NoInode volume 0 view 1 id 2 name e\n");
    "clean_space_queued", Made(QUEUED, &[]), SPACE, Wrote(SPACE_QUEUED_LINES);
};
