// The cases: what stands in a tree beside its two directories, and what is said of it. What is expected was worked out by hand from
// the rules' words.
use crate::tests::trees::Rec::*;
use crate::tests::trees::Top::{Private, Root};
use crate::tests::trees::{At, Block, Count, FILE, FOLDER, Id, In, LINK, Rec, Sibling, Size, Top};
use Base::*;
use Said::*;
use Word::*;
use img_make::table;

// The word of a fault.
#[derive(Clone, Copy, PartialEq, Eq)]
pub enum Word {
    DupName,
    Hash,
    NoParent,
    NoInode,
    KindMismatch,
    DirNames,
    Unreached,
    Children,
    Links,
    SiblingLost,
    ExtentOrder,
    ExtentPlace,
    ExtentUncovered,
    LinkTarget,
    Stream,
    AttrOwner,
}

// What is said of a view.
#[derive(Clone, Copy)]
pub enum Said {
    /// It meets its rules, and has so many records.
    Clean(u64),
    /// The same, with the note that an inode has no entry.
    Unnamed(u64, u64),
    /// The item of this number is out of order.
    Order(u64),
    /// The value of the item of this number is too short.
    Record(u64),
    /// The root isn't there, or it is no directory.
    NoRoot,
    /// This fault at an id.
    Fault(Word, u64),
    /// One of two faults at an id; both are there.
    Either(Word, Word, u64),
    /// This fault at an id and a name.
    Named(Word, u64, &'static str),
}

// What a tree has beside its two directories, before the records of a case.
#[derive(Clone, Copy)]
pub enum Base {
    /// Nothing.
    Alone,
    /// A regular file in the root.
    OneFile,
    /// A symbolic link in the root, without a target.
    OneLink,
    /// A file with two names in the root, without the link and the map of the second.
    TwoNames,
    /// A directory in the root, one in it, and one in that.
    DeepFolders,
}

// The records of the bases.
const ONE_FILE: &[Rec] = &[
    Entry(In(2), Id(16), FILE, "a"),
    Inode(Id(16), In(2), F, Count(1)),
];

const ONE_LINK: &[Rec] = &[
    Entry(In(2), Id(16), LINK, "l"),
    Inode(Id(16), In(2), L, Count(1)),
];

const TWO_NAMES: &[Rec] = &[
    Inode(Id(16), In(2), F, Count(2)),
    Twin(In(2), Id(16), FILE, Sibling(17), "a"),
    Twin(In(2), Id(16), FILE, Sibling(18), "b"),
    Link(Id(16), Sibling(17), In(2), "a"),
    Map(Sibling(17), Id(16)),
];

const DEEP_FOLDERS: &[Rec] = &[
    Entry(In(2), Id(16), FOLDER, "a"),
    Inode(Id(16), In(2), D, Count(1)),
    Entry(In(16), Id(17), FOLDER, "b"),
    Inode(Id(17), In(16), D, Count(1)),
    Entry(In(17), Id(18), FOLDER, "c"),
    Inode(Id(18), In(17), D, Count(0)),
];

impl Base {
    pub fn records(self) -> &'static [Rec] {
        match self {
            Alone => &[],
            OneFile => ONE_FILE,
            OneLink => ONE_LINK,
            TwoNames => TWO_NAMES,
            DeepFolders => DEEP_FOLDERS,
        }
    }
}

// A name, what stands in the place of the root, what the tree has besides, further records, and what is said.
pub type Case = (&'static str, Top, Base, &'static [Rec], Said);

pub const D: u16 = 0x41ed;

pub const F: u16 = 0x81a4;

pub const L: u16 = 0xa1ed;

const SYMLINK: &str = "com.apple.fs.symlink";

const SECOND_LINK: Rec = Link(Id(16), Sibling(18), In(2), "b");

const SECOND_MAP: Rec = Map(Sibling(18), Id(16));

// Names, entries and records.
pub const NAME_CASES: &[Case] = table! {
    "clean_empty", Root(0), Alone, &[], Clean(4);
    "clean_file", Root(1), OneFile, &[], Clean(6);
    "fault_order", Root(1), OneFile, &[Inode(Id(16), In(2), F, Count(1))], Order(6);
    "fault_record", Root(0), Alone, &[Cut(Id(16), In(2))], Record(4);
    "fault_dup_name_entry", Root(2), OneFile, &[Entry(In(2), Id(17), FILE, "a"), Inode(Id(17), In(2), F, Count(1))], Named(DupName, 2, "a");
    "clean_names_of_one_hash", Root(2), OneFile, &[Entry(In(2), Id(17), FILE, "A"), Inode(Id(17), In(2), F, Count(1))], Clean(8);
    "clean_name_in_two_directories", Root(2), Alone, &[Entry(In(2), Id(16), FOLDER, "d"), Inode(Id(16), In(2), D, Count(1)),
        Entry(In(2), Id(17), FILE, "a"), Inode(Id(17), In(2), F, Count(1)), Entry(In(16), Id(18), FILE, "a"), Inode(Id(18), In(16), F, Count(1))],
        Clean(10);
    "fault_dup_name_reserved", Root(0), Alone, &[Entry(In(1), Id(2), FOLDER, "root")], Named(DupName, 1, "root");
    "fault_dup_name_attribute", Root(1), OneFile, &[Attr(Id(16), "x", b"1"), Attr(Id(16), "x", b"2")], Named(DupName, 16, "x");
    "clean_attributes", Root(2), OneFile, &[Entry(In(2), Id(17), FILE, "b"), Inode(Id(17), In(2), F, Count(1)), Attr(Id(16), "x", b"1"),
        Attr(Id(16), "y", b"1"), Attr(Id(17), "x", b"1")], Clean(11);
    "fault_hash", Root(1), Alone, &[Hashed(In(2), Id(16), FILE, "hello.txt"), Inode(Id(16), In(2), F, Count(1))], Named(Hash, 2, "hello.txt");
    "fault_hash_reserved", Root(0), Alone, &[Hashed(In(5), Id(99), FILE, "x")], Named(Hash, 5, "x");
    "clean_hash_of_other_letters", Root(1), Alone, &[Entry(In(2), Id(16), FILE, "é"), Inode(Id(16), In(2), F, Count(1))], Clean(6);
    "fault_no_parent", Root(0), Alone, &[Entry(In(16), Id(17), FILE, "a"), Inode(Id(17), In(16), F, Count(1))], Named(NoParent, 16, "a");
    "fault_no_parent_file", Root(1), Alone,
        &[Entry(In(2), Id(16), FILE, "f"), Inode(Id(16), In(2), F, Count(1)), Entry(In(16), Id(17), FILE, "a"), Inode(Id(17), In(16), F, Count(1))],
        Named(NoParent, 16, "a");
    "clean_reserved_without_inodes", Root(0), Alone, &[Entry(In(4), Id(99), FILE, "x"), Entry(In(15), Id(99), FOLDER, "y")], Clean(6);
    "fault_no_inode", Root(1), Alone, &[Entry(In(2), Id(16), FILE, "a")], Named(NoInode, 2, "a");
    "fault_no_root", Top::None, Alone, &[], NoRoot;
    "fault_root_is_a_file", Top::File, Alone, &[], NoRoot;
    "fault_kind_mismatch", Root(1), Alone, &[Entry(In(2), Id(16), FOLDER, "a"), Inode(Id(16), In(2), F, Count(1))], Named(KindMismatch, 2, "a");
    "clean_reserved_of_another_kind", Root(1), OneFile, &[Entry(In(5), Id(16), FOLDER, "x")], Clean(7);
};

// Directories, children and links.
pub const DIRECTORY_CASES: &[Case] = table! {
    "clean_deep_folders", Root(1), DeepFolders, &[], Clean(10);
    "fault_dir_names_none", Root(0), Alone, &[Inode(Id(16), In(2), D, Count(0))], Fault(DirNames, 16);
    "fault_dir_names_twice", Root(2), Alone, &[Twin(In(2), Id(16), FOLDER, Sibling(17), "a"), Twin(In(2), Id(16), FOLDER, Sibling(18), "b"),
        Inode(Id(16), In(2), D, Count(0)), Link(Id(16), Sibling(17), In(2), "a"), Map(Sibling(17), Id(16)), SECOND_LINK, SECOND_MAP],
        Fault(DirNames, 16);
    "fault_dir_names_elsewhere", Root(2), Alone, &[Entry(In(2), Id(16), FOLDER, "a"), Inode(Id(16), In(17), D, Count(0)),
        Entry(In(2), Id(17), FOLDER, "b"), Inode(Id(17), In(2), D, Count(0))], Fault(DirNames, 16);
    "fault_dir_names_root", Root(1), Alone, &[Entry(In(2), Id(2), FOLDER, "me")], Fault(DirNames, 2);
    "fault_unreached_itself", Root(0), Alone, &[Inode(Id(16), In(16), D, Count(1)), Entry(In(16), Id(16), FOLDER, "x")], Fault(Unreached, 16);
    "fault_unreached_ring", Root(0), Alone, &[Inode(Id(16), In(17), D, Count(1)), Inode(Id(17), In(16), D, Count(1)),
        Entry(In(16), Id(17), FOLDER, "b"), Entry(In(17), Id(16), FOLDER, "a")], Fault(Unreached, 16);
    "fault_unreached_after_deep_folders", Root(1), DeepFolders, &[Inode(Id(19), In(19), D, Count(1)), Entry(In(19), Id(19), FOLDER, "x")],
        Fault(Unreached, 19);
    "fault_children_root", Root(1), Alone, &[], Fault(Children, 2);
    "fault_children_too_few", Root(1), Alone,
        &[Entry(In(2), Id(16), FOLDER, "a"), Inode(Id(16), In(2), D, Count(0)), Entry(In(16), Id(17), FILE, "b"), Inode(Id(17), In(16), F, Count(1))],
        Fault(Children, 16);
    "fault_children_too_many", Root(1), Alone, &[Entry(In(2), Id(16), FOLDER, "a"), Inode(Id(16), In(2), D, Count(1))], Fault(Children, 16);
    "clean_children_of_3", Private(5), Alone, &[], Clean(4);
    "fault_links", Root(1), Alone, &[Entry(In(2), Id(16), FILE, "a"), Inode(Id(16), In(2), F, Count(2))], Fault(Links, 16);
    "fault_links_none", Root(1), Alone, &[Entry(In(2), Id(16), FILE, "a"), Inode(Id(16), In(2), F, Count(0))], Fault(Links, 16);
    "clean_links_of_3", Root(0), Alone, &[Entry(In(3), Id(16), FILE, "x"), Inode(Id(16), In(3), F, Count(7))], Clean(6);
    "clean_links_reserved", Root(1), Alone, &[Entry(In(2), Id(16), FILE, "a"), Inode(Id(16), In(2), F, Count(3)), Entry(In(5), Id(16), FILE, "x")],
        Clean(7);
    "clean_links_of_no_regular_file", Root(1), Alone,
        &[Entry(In(2), Id(16), LINK, "l"), Inode(Id(16), In(2), L, Count(2)), Attr(Id(16), SYMLINK, b"a\0")], Clean(7);
    "clean_links_without_an_entry", Root(0), Alone, &[Inode(Id(16), In(2), F, Count(5))], Unnamed(5, 16);
};

// Files with several names.
pub const SIBLING_CASES: &[Case] = table! {
    "clean_two_names", Root(2), TwoNames, &[SECOND_LINK, SECOND_MAP], Clean(11);
    "fault_sibling_lost_link", Root(2), TwoNames, &[SECOND_MAP], Fault(SiblingLost, 18);
    "fault_sibling_lost_map", Root(2), TwoNames, &[SECOND_LINK], Fault(SiblingLost, 18);
    "fault_sibling_lost_entry", Root(1), Alone, &[Inode(Id(16), In(2), F, Count(1)), Twin(In(2), Id(16), FILE, Sibling(17), "a"),
        Link(Id(16), Sibling(17), In(2), "a"), SECOND_LINK, Map(Sibling(17), Id(16)), SECOND_MAP], Fault(SiblingLost, 18);
    "fault_sibling_lost_other_name", Root(2), TwoNames, &[Link(Id(16), Sibling(18), In(2), "c"), SECOND_MAP], Fault(SiblingLost, 18);
    "fault_sibling_lost_other_letters", Root(2), TwoNames, &[Link(Id(16), Sibling(18), In(2), "B"), SECOND_MAP], Fault(SiblingLost, 18);
    "fault_sibling_lost_other_directory", Root(2), TwoNames, &[Link(Id(16), Sibling(18), In(16), "b"), SECOND_MAP], Fault(SiblingLost, 18);
    "fault_sibling_lost_link_of_3", Root(2), TwoNames, &[Link(Id(16), Sibling(18), In(3), "b"), SECOND_MAP], Fault(SiblingLost, 18);
    "fault_sibling_lost_other_file", Root(2), TwoNames, &[SECOND_LINK, Map(Sibling(18), Id(17))], Fault(SiblingLost, 18);
    "fault_sibling_lost_map_alone", Root(1), OneFile, &[SECOND_MAP], Fault(SiblingLost, 18);
    "fault_sibling_lost_entry_without_it", Root(1), OneFile, &[Link(Id(16), Sibling(18), In(2), "a"), SECOND_MAP], Fault(SiblingLost, 18);
    "fault_sibling_lost_no_id", Root(2), Alone, &[Twin(In(2), Id(16), FILE, Sibling(17), "a"), Link(Id(16), Sibling(17), In(2), "a"),
        Map(Sibling(17), Id(16)), Entry(In(2), Id(16), FILE, "b"), Inode(Id(16), In(2), F, Count(2))], Fault(SiblingLost, 16);
    "fault_sibling_lost_reserved_entry", Root(1), OneFile, &[Twin(In(5), Id(16), FILE, Sibling(18), "z"), SECOND_MAP], Fault(SiblingLost, 18);
    "clean_link_of_3", Root(1), OneFile, &[Link(Id(16), Sibling(18), In(3), "z")], Clean(7);
    "clean_link_of_3_with_map", Root(1), OneFile, &[Link(Id(16), Sibling(18), In(3), "z"), SECOND_MAP], Clean(8);
    "clean_reserved_link_with_map", Root(1), OneFile, &[Link(Id(16), Sibling(18), In(5), "z"), SECOND_MAP], Clean(8);
    "clean_private_entry", Root(0), Alone, &[Twin(In(3), Id(16), FILE, Sibling(18), "z"), Inode(Id(16), In(3), F, Count(1))], Clean(6);
    "clean_private_entry_with_map", Root(0), Alone, &[Twin(In(3), Id(16), FILE, Sibling(18), "z"), Inode(Id(16), In(3), F, Count(1)), SECOND_MAP],
        Clean(7);
    "clean_reserved_entry", Root(1), OneFile, &[Twin(In(5), Id(16), FILE, Sibling(18), "z")], Clean(7);
};

// Extents; blocks 57, 58 and 255 to 258 are covered.
pub const EXTENT_CASES: &[Case] = table! {
    "clean_extent", Root(1), OneFile, &[Extent(Id(16), At(0), Size(8192), Block(57))], Clean(7);
    "fault_extent_order_empty", Root(1), OneFile, &[Extent(Id(16), At(0), Size(0), Block(57))], Fault(ExtentOrder, 16);
    "fault_extent_order_address", Root(1), OneFile, &[Extent(Id(16), At(100), Size(4096), Block(57))], Fault(ExtentOrder, 16);
    "fault_extent_order_length", Root(1), OneFile, &[Extent(Id(16), At(0), Size(4095), Block(57))], Fault(ExtentOrder, 16);
    "fault_extent_order_end", Root(1), OneFile, &[Extent(Id(16), At(0x7fff_ffff_ffff_f000), Size(8192), Block(57))], Fault(ExtentOrder, 16);
    "clean_extent_to_the_end", Root(1), OneFile, &[Extent(Id(16), At(0x7fff_ffff_ffff_f000), Size(4096), Block(57))], Clean(7);
    "fault_extent_order_overlap", Root(1), OneFile, &[Extent(Id(16), At(0), Size(8192), Block(57)), Extent(Id(16), At(4096), Size(4096), Block(57))],
        Fault(ExtentOrder, 16);
    "fault_extent_order_over_two", Root(1), OneFile, &[Extent(Id(16), At(0), Size(12288), Block(0)), Extent(Id(16), At(4096), Size(4096), Block(57)),
        Extent(Id(16), At(8192), Size(4096), Block(58))], Fault(ExtentOrder, 16);
    "clean_extents_that_touch", Root(1), OneFile, &[Extent(Id(16), At(0), Size(4096), Block(57)), Extent(Id(16), At(4096), Size(4096), Block(58))],
        Clean(8);
    "clean_extents_with_a_gap", Root(1), OneFile, &[Extent(Id(16), At(0), Size(4096), Block(57)), Extent(Id(16), At(12288), Size(4096), Block(58))],
        Clean(8);
    "clean_extents_of_two_streams", Root(1), OneFile, &[Extent(Id(16), At(0), Size(8192), Block(57)), Extent(Id(17), At(4096), Size(4096), Block(57))],
        Clean(8);
    "fault_extent_order_second_stream", Root(1), OneFile, &[Extent(Id(16), At(0), Size(8192), Block(57)),
        Extent(Id(17), At(4096), Size(8192), Block(57)), Extent(Id(17), At(8192), Size(4096), Block(57))], Fault(ExtentOrder, 17);
    "fault_extent_place", Root(1), OneFile, &[Extent(Id(16), At(0), Size(8192), Block(255))], Fault(ExtentPlace, 16);
    "clean_extent_in_the_last_block", Root(1), OneFile, &[Extent(Id(16), At(0), Size(4096), Block(255))], Clean(7);
    "clean_large_hole", Root(1), OneFile, &[Extent(Id(16), At(0), Size(0x1_0000_0000), Block(0))], Clean(7);
    "fault_extent_uncovered", Root(1), OneFile, &[Extent(Id(16), At(0), Size(4096), Block(60))], Fault(ExtentUncovered, 16);
    "fault_extent_uncovered_end", Root(1), OneFile, &[Extent(Id(16), At(0), Size(12288), Block(57))], Fault(ExtentUncovered, 16);
    "fault_extent_uncovered_second", Root(1), OneFile, &[Extent(Id(16), At(0), Size(4096), Block(57)), Extent(Id(17), At(0), Size(4096), Block(56))],
        Fault(ExtentUncovered, 17);
    "fault_extent_place_or_cover", Root(1), OneFile, &[Extent(Id(16), At(0), Size(0xff_ffff_ffff_f000), Block(57))],
        Either(ExtentPlace, ExtentUncovered, 16);
};

// Symbolic links, streams and attributes.
pub const INODE_CASES: &[Case] = table! {
    "fault_link_target_none", Root(1), OneLink, &[], Fault(LinkTarget, 16);
    "clean_link_target", Root(1), OneLink, &[Attr(Id(16), SYMLINK, b"a\0")], Clean(7);
    "fault_link_target_empty", Root(1), OneLink, &[Attr(Id(16), SYMLINK, b"\0")], Fault(LinkTarget, 16);
    "fault_link_target_without_zero", Root(1), OneLink, &[Attr(Id(16), SYMLINK, b"ab")], Fault(LinkTarget, 16);
    "fault_link_target_two_zeros", Root(1), OneLink, &[Attr(Id(16), SYMLINK, b"a\0b\0")], Fault(LinkTarget, 16);
    "fault_link_target_zero_inside", Root(1), OneLink, &[Attr(Id(16), SYMLINK, b"\0a")], Fault(LinkTarget, 16);
    "fault_link_target_stream", Root(1), OneLink, &[StreamAttr(Id(16), SYMLINK, Size(2))], Fault(LinkTarget, 16);
    "fault_link_target_other_name", Root(1), OneLink, &[Attr(Id(16), "x", b"a\0")], Fault(LinkTarget, 16);
    "fault_link_target_of_another_file", Root(2), OneLink,
        &[Entry(In(2), Id(17), FILE, "b"), Inode(Id(17), In(2), F, Count(1)), Attr(Id(17), SYMLINK, b"a\0")], Fault(LinkTarget, 16);
    "fault_stream", Root(1), Alone, &[Entry(In(2), Id(16), FILE, "a"), Streamed(Id(16), Size(0x8000_0000_0000_0000))], Fault(Stream, 16);
    "clean_stream", Root(1), Alone, &[Entry(In(2), Id(16), FILE, "a"), Streamed(Id(16), Size(0x7fff_ffff_ffff_ffff))], Clean(6);
    "fault_stream_of_an_attribute", Root(1), OneFile, &[StreamAttr(Id(16), "x", Size(0x8000_0000_0000_0000))], Fault(Stream, 16);
    "clean_stream_of_an_attribute", Root(1), OneFile, &[StreamAttr(Id(16), "x", Size(0x7fff_ffff_ffff_ffff))], Clean(7);
    "fault_attr_owner", Root(0), Alone, &[Attr(Id(16), "x", b"1")], Fault(AttrOwner, 16);
    "fault_attr_owner_second", Root(1), OneFile, &[Attr(Id(16), "x", b"1"), Attr(Id(17), "x", b"1")], Fault(AttrOwner, 17);
    "clean_attr_of_the_root", Root(0), Alone, &[Attr(Id(2), "x", b"1")], Clean(5);
};

// Trees of two leaves below the root: an item's number counts the entries of the root too, each before the items of its leaf.
pub const LEAF_CASES: &[Case] = table! {
    "clean_two_leaves", Root(1), OneFile, &[], Clean(6);
    "fault_record_in_the_last_leaf", Root(1), Alone, &[Entry(In(2), Id(16), FILE, "a"), Cut(Id(16), In(2))], Record(7);
    "fault_order_across_leaves", Root(1), OneFile, &[Inode(Id(16), In(2), F, Count(1))], Order(8);
    "fault_no_inode_in_the_last_leaf", Root(1), Alone,
        &[Entry(In(2), Id(16), FOLDER, "d"), Inode(Id(16), In(2), D, Count(1)), Entry(In(16), Id(17), FILE, "a")], Named(NoInode, 16, "a");
};
