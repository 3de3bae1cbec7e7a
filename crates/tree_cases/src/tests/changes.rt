// Whether a change between two views shows to be plain. What is expected was worked out by hand from the rules' words.
use crate::tests::cases::Base::Alone;
use crate::tests::cases::{D, F, L};
use crate::tests::opened::{open, refusal};
use crate::tests::trees::Rec::*;
use crate::tests::trees::Top::Root;
use crate::tests::trees::{
    At, Block, Count, FILE, FOLDER, Id, In, LINK, Rec, Sibling, Size, image_of,
};
use blk_source::NoMemory;
use ext_ref::{Cover, NewRange};
use img_make::table;
use obj_base::Site;
use plain_change::{is_plain, is_silent};
use rule_breaks::faults::Asked;
use rule_index::Index;
use rule_index::chain::are_in_order;
use std::alloc::{AllocError, Global};
use std::process::Abort;
use std::test::Fail;
use view_facts::{Facts, ViewFacts, view_facts};
use view_rules::Profile;
use vol_view::View;

// The ranges that cover the blocks of extents.
const RANGES: [NewRange; 1] = [NewRange {
    first: 57,
    length: 2,
    count: 1,
}];

// The site of the containers.
const SITE: Site = Site {
    block_size: 4096,
    blocks: 256,
    max_xid: 1,
};

// How many children the root says it has, and other records.
type Tree = (u32, &'static [Rec]);

// A name, the records that stay, what is gone, what has come, and whether the change shows to be plain, and to bring no notes.
type Change = (&'static str, &'static [Rec], Tree, Tree, (bool, bool));

const A: Rec = Inode(Id(16), In(2), F, Count(1));

const NAME_OF_A: Rec = Entry(In(2), Id(16), FILE, "a");

const B: Rec = Inode(Id(17), In(2), F, Count(1));

const NAME_OF_B: Rec = Entry(In(2), Id(17), FILE, "b");

// The first name of a file with several: its entry, its link and its map.
const TWIN_A: Rec = Twin(In(2), Id(16), FILE, Sibling(20), "a");

const LINK_A: Rec = Link(Id(16), Sibling(20), In(2), "a");

const MAP_A: Rec = Map(Sibling(20), Id(16));

// The second one.
const TWIN_B: Rec = Twin(In(2), Id(16), FILE, Sibling(21), "b");

const LINK_B: Rec = Link(Id(16), Sibling(21), In(2), "b");

const MAP_B: Rec = Map(Sibling(21), Id(16));

// The file with two links, and with three.
const TWO: Rec = Inode(Id(16), In(2), F, Count(2));

const THREE: Rec = Inode(Id(16), In(2), F, Count(3));

// A folder in a new folder.
const NESTED: &[Rec] = &[
    Inode(Id(16), In(2), D, Count(1)),
    Inode(Id(17), In(16), D, Count(0)),
    Entry(In(2), Id(16), FOLDER, "d"),
    Entry(In(16), Id(17), FOLDER, "e"),
];

// Two folders, each in the other one.
const RING: &[Rec] = &[
    Inode(Id(16), In(17), D, Count(1)),
    Inode(Id(17), In(16), D, Count(1)),
    Entry(In(17), Id(16), FOLDER, "d"),
    Entry(In(16), Id(17), FOLDER, "e"),
];

const CHANGES: &[Change] = table! {
    "nothing", &[A, NAME_OF_A], (1, &[]), (1, &[]), (true, true);
    "a_new_file", &[A, NAME_OF_A], (1, &[]), (2, &[B, NAME_OF_B]), (true, true);
    "a_deleted_file", &[A, NAME_OF_A], (2, &[B, NAME_OF_B]), (1, &[]), (true, true);
    "a_deleted_name", &[A, B, NAME_OF_A], (2, &[NAME_OF_B]), (1, &[]), (true, false);
    "a_name_whose_file_is_gone", &[NAME_OF_A], (1, &[A]), (1, &[]), (false, true);
    "a_root_with_fewer_entries_than_it_says", &[A, NAME_OF_A], (1, &[]), (3, &[B, NAME_OF_B]), (false, true);
    "a_name_that_is_there_twice", &[A, NAME_OF_A], (1, &[]), (2, &[B, Entry(In(2), Id(17), FILE, "a")]), (false, true);
    "a_name_with_another_hash", &[A, NAME_OF_A], (1, &[]), (2, &[B, Hashed(In(2), Id(17), FILE, "b")]), (false, true);
    "a_folder_in_a_new_folder", &[], (0, &[]), (1, NESTED), (true, true);
    "folders_in_one_another", &[], (0, &[]), (0, RING), (false, true);
    "a_link_without_a_target", &[], (0, &[]), (1, &[Inode(Id(16), In(2), L, Count(1)), Entry(In(2), Id(16), LINK, "l")]), (false, true);
    "an_extent_after_another", &[A, NAME_OF_A, Extent(Id(16), At(0), Size(4096), Block(57))], (1, &[]),
        (1, &[Extent(Id(16), At(4096), Size(4096), Block(58))]), (true, true);
    "an_extent_over_another", &[A, NAME_OF_A, Extent(Id(16), At(0), Size(8192), Block(57))], (1, &[]),
        (1, &[Extent(Id(16), At(4096), Size(4096), Block(58))]), (false, true);
    "an_extent_in_no_new_range", &[A, NAME_OF_A], (1, &[]), (1, &[Extent(Id(16), At(0), Size(4096), Block(59))]), (false, true);
    "a_sibling", &[A, NAME_OF_A], (1, &[]), (1, &[MAP_A]), (false, true);
    "a_second_name", &[], (1, &[A, NAME_OF_A]), (2, &[TWO, TWIN_A, TWIN_B, LINK_A, LINK_B, MAP_A, MAP_B]), (true, true);
    "a_third_name", &[TWIN_A, TWIN_B, LINK_A, LINK_B, MAP_A, MAP_B], (2, &[TWO]),
        (3, &[THREE, Twin(In(2), Id(16), FILE, Sibling(22), "c"), Link(Id(16), Sibling(22), In(2), "c"), Map(Sibling(22), Id(16))]), (true, true);
    "a_deleted_name_of_two", &[TWIN_A, LINK_A, MAP_A], (2, &[TWO, TWIN_B, LINK_B, MAP_B]), (1, &[A]), (true, true);
    "a_name_of_two_that_is_changed", &[TWO, TWIN_A, LINK_A, MAP_A, MAP_B], (2, &[TWIN_B, LINK_B]),
        (2, &[Twin(In(2), Id(16), FILE, Sibling(21), "c"), Link(Id(16), Sibling(21), In(2), "c")]), (true, true);
    "a_deleted_file_with_two_names", &[], (2, &[TWO, TWIN_A, TWIN_B, LINK_A, LINK_B, MAP_A, MAP_B]), (0, &[]), (true, true);
    "a_second_name_beside_one_without_a_mark", &[NAME_OF_A], (1, &[A]), (2, &[TWO, TWIN_B, LINK_B, MAP_B]), (false, true);
    "a_link_whose_entry_is_gone", &[TWIN_A, LINK_A, MAP_A, LINK_B, MAP_B], (2, &[TWO, TWIN_B]), (1, &[A]), (false, true);
    "an_entry_whose_link_is_gone", &[TWO, TWIN_A, TWIN_B, LINK_A, MAP_A, MAP_B], (2, &[LINK_B]), (2, &[]), (false, true);
    "a_link_whose_map_is_gone", &[TWO, TWIN_A, TWIN_B, LINK_A, LINK_B, MAP_A], (2, &[MAP_B]), (2, &[]), (false, true);
    "a_map_whose_entry_and_link_are_gone", &[TWIN_A, LINK_A, MAP_A, MAP_B], (2, &[TWO, TWIN_B, LINK_B]), (1, &[A]), (false, true);
};

// The facts of a view of these records, with the view.
fn gathered(alloc: Global, tree: (u32, &[Rec])) -> Result<(ViewFacts, View), Fail> {
    let image = image_of(alloc, Root(tree.0), Alone, tree.1)?;
    let mut at = open(alloc, image, 0)?;
    match view_facts(alloc, &mut at.src, &at.volume, &at.view, &at.site) {
        Ok(gathered) => Ok((gathered, at.view)),
        Err(stop) => Err(refusal(stop)),
    }
}

// Some records, and more of them.
fn joined(alloc: Global, some: &[Rec], more: &[Rec]) -> Result<Vec<Rec>, AllocError> {
    let mut all = Vec::from_slice(alloc, some)?;
    for record in more {
        all.push(*record)?;
    }
    Ok(all)
}

// The facts of these records.
fn facts_of(alloc: Global, tree: Tree) -> Result<Facts, Fail> {
    let (gathered, _) = gathered(alloc, tree)?;
    Ok(gathered.facts)
}

// Whether a change shows to be plain, and to bring no notes, by an index of the facts after it.
fn shown_by(
    alloc: Global,
    view: &View,
    index: &Index<'_>,
    gone: &Facts,
    come: &Facts,
) -> Result<(bool, bool), NoMemory> {
    let asked = Asked {
        view,
        site: &SITE,
        ranges: &RANGES,
        profile: Profile::Strict,
    };
    let cover = Cover::of(alloc, &RANGES)?;
    let plain = is_plain(alloc, &asked, &cover, index, gone, come)?;
    let silent = is_silent(alloc, index, gone, come)?;
    Ok((plain, silent))
}

// The same by the facts after it; neither where these aren't in order.
fn shown_after(
    alloc: Global,
    view: &View,
    after: &Facts,
    gone: &Facts,
    come: &Facts,
) -> Result<(bool, bool), NoMemory> {
    if !are_in_order(after) {
        return Ok((false, false));
    }
    let index = Index::after(alloc, after, gone, come)?;
    shown_by(alloc, view, &index, gone, come)
}

// The same by the records that are gone and have come.
fn shown_of(
    alloc: Global,
    view: &View,
    after: &Facts,
    gone: Tree,
    come: Tree,
) -> Result<(bool, bool), Fail> {
    let gone = facts_of(alloc, gone)?;
    let come = facts_of(alloc, come)?;
    Ok(shown_after(alloc, view, after, &gone, &come)?)
}

// Whether that is what a change says, by the records that stay, too.
fn is_shown(alloc: Global, change: &Change) -> Result<bool, Fail> {
    let (_, same, gone, come, expected) = *change;
    let records = joined(alloc, same, come.1)?;
    let (after, view) = gathered(alloc, (come.0, &records))?;
    let (plain, silent) = shown_of(alloc, &view, &after.facts, gone, come)?;
    Ok(plain == expected.0 && silent == expected.1)
}

fn assert_changes(rt: &impl Abort, alloc: Global, changes: &[Change]) -> Result<(), Fail> {
    for change in changes {
        assert!(rt; is_shown(alloc, change)?, "{}", change.0);
    }
    Ok(())
}

#[test]
fn changes_show_to_be_plain(rt: HostRuntime) -> Result<(), Fail> {
    assert_changes(&rt, rt.alloc(), CHANGES)
}
