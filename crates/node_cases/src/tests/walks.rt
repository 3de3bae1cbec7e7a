// Walks over trees that are written here.

ghost use Rattle.std.specs.Prelude.{◌≡◌, ◌≤◌, IfOk, length};
ghost use Rattle.obj_base.specs.Site.{IsSiteFor};
ghost use Rattle.bt_cursor.specs.Cursors.{site_of as cursor_site};
ghost use Rattle.bt_cursor.specs.Liners.{site_of as liner_site};

mod gathers;
mod image;
mod trees;

use blk_source::MemSource;
use bt_cursor::{Cursor, Liner, Physical, WalkFault};
use bt_keys::{FsKey, FsPlainKey, QueueKey};
use bt_node::{Rank, Site, TreeKey};
use image::{Form, Node, tree_image};
use obj_base::Stop;
use std::alloc::{AllocError, Global};
use std::process::Abort;
use trees::*;

const SITE: Site = Site {
    block_size: 4096,
    blocks: 8,
    max_xid: 1,
};

const PHYSICAL: Physical = Physical { blocks: 8 };

// The container of a tree, and the number of the read that fails, if any does.
fn container(alloc: Global, form: Form, nodes: &[Node], fails: u64) -> Result<MemSource, AllocError>
    ensures { IfOk result (λ src. 32768 ≤ length src.bytes) }
{
    let image = tree_image(alloc, 4096, form, nodes)?;
    if image.len() < 32768 {
        return Err(AllocError);
    }
    Ok(MemSource::new(image, vec![in alloc; fails]?))
}

// Adds the items of a Line, until the walk stops.
fn add_items<K: TreeKey>(
    liner: &mut Liner<K, Physical>,
    src: &mut MemSource,
    items: &mut Vec<Item>,
) -> Result<(), Stop<WalkFault>>
    requires { IsSiteFor (liner_site liner.old) (length src.old.bytes) }
{
    'walk: for _ in 0..100 {
        if !liner.next(src)? {
            return Ok(());
        }
        let item = liner.item();
        let rank = item.pair.key.rank();
        items.push((item.level, rank.id, rank.kind))?;
    }
    Ok(())
}

// Adds the items of the Line of the tree in block 1, until the walk stops.
fn line<K: TreeKey>(
    alloc: Global,
    src: &mut MemSource,
    items: &mut Vec<Item>,
) -> Result<(), Stop<WalkFault>>
    requires { 32768 ≤ length src.old.bytes }
{
    let mut liner = Liner::<K, Physical>::new(alloc, src, PHYSICAL, 1, SITE)?;
    let end = add_items(&mut liner, src, items);
    drop(liner);
    end
}

// Adds the entries of a flat list from a cursor's place on, until the walk stops.
fn add_entries<K: TreeKey>(
    cursor: &mut Cursor<K, Physical>,
    src: &mut MemSource,
    items: &mut Vec<Item>,
) -> Result<(), Stop<WalkFault>>
    requires { IsSiteFor (cursor_site cursor.old) (length src.old.bytes) }
{
    'walk: for _ in 0..100 {
        if !cursor.next(src)? {
            return Ok(());
        }
        let rank = cursor.item().key.rank();
        items.push((0, rank.id, rank.kind))?;
    }
    Ok(())
}

// The same from a rank on.
fn add_entries_from<K: TreeKey>(
    cursor: &mut Cursor<K, Physical>,
    src: &mut MemSource,
    from: Option<Rank>,
    items: &mut Vec<Item>,
) -> Result<(), Stop<WalkFault>>
    requires { IsSiteFor (cursor_site cursor.old) (length src.old.bytes) }
{
    cursor.first(src)?;
    if let Some(rank) = from {
        cursor.seek(src, &rank)?;
    }
    add_entries(cursor, src, items)
}

// Adds the entries of the flat list of the tree in block 1, from a rank on.
fn flat<K: TreeKey>(
    alloc: Global,
    src: &mut MemSource,
    from: Option<Rank>,
    items: &mut Vec<Item>,
) -> Result<(), Stop<WalkFault>>
    requires { 32768 ≤ length src.old.bytes }
{
    let mut cursor = Cursor::<K, Physical>::new(alloc, src, PHYSICAL, 1, SITE)?;
    let end = add_entries_from(&mut cursor, src, from, items);
    drop(cursor);
    end
}

// Whether the Line of a tree has the items of a walk, and ends as it does.
fn is_line<K: TreeKey>(alloc: Global, form: Form, walk: &Walk) -> Result<bool, AllocError> {
    let mut src = container(alloc, form, walk.0, walk.1)?;
    let mut passed = Vec::new(alloc);
    let end = line::<K>(alloc, &mut src, &mut passed);
    Ok(end == walk.3 && passed.as_slice() == walk.2)
}

// Whether the flat list of a tree has the entries of a search, and ends as it does.
fn is_flat<K: TreeKey>(alloc: Global, form: Form, search: &Search) -> Result<bool, AllocError> {
    let mut src = container(alloc, form, search.0, 0)?;
    let mut passed = Vec::new(alloc);
    let end = flat::<K>(alloc, &mut src, search.1, &mut passed);
    Ok(end == search.3 && passed.as_slice() == search.2)
}

// A rank of an id and a kind.
macro_rules! rank {
    ($id:expr, $kind:expr) => {
        Some(Rank {
            id: $id,
            kind: $kind,
            sub: 0,
        })
    };
}

const LINES: &[Walk] = &[
    (THREE_LEVELS, 0, THREE_LEVELS_LINE, Ok(())),
    (NO_KEY, 0, &[], Ok(())),
    (
        THREE_LEVELS,
        3,
        &[(2, 1, 0), (1, 1, 0)],
        Err(Stop::ReadFault),
    ),
];

// Asserts that trees of a queue's keys have these Lines.
fn assert_lines(rt: &impl Abort, alloc: Global, walks: &[Walk]) {
    for (i, walk) in walks.iter().enumerate() {
        assert!(rt;
            is_line::<QueueKey>(alloc, QUEUE, walk) == Ok(true),
            "walk {i}"
        );
    }
}

#[test]
fn whole_lines_and_a_failed_read(rt: HostRuntime) {
    assert_lines(&rt, rt.alloc(), LINES);
}

#[test]
fn lines_that_stop(rt: HostRuntime) {
    assert_lines(&rt, rt.alloc(), TWO_LEAVES);
}

const OUT_OF_ORDER: End = Err(Stop::Found(WalkFault::Order { item: 3 }));

const COUNTED_WRONG: End = Err(Stop::Found(WalkFault::Counts));

// The items of the Line of a directory's entry that is named twice, and those before an inode that is.
const TWICE: &[Item] = &[(1, 2, 9), (0, 2, 9), (1, 2, 9), (0, 2, 9)];

const ONCE: &[Item] = &[(1, 2, 3), (0, 2, 3), (1, 2, 3)];

// Trees that name a child twice. A directory's entries may have equal ranks, in one leaf and across two; an inode's key
// stands once.
const NAMED_TWICE: &[Walk] = &[
    (COUNTED_TWICE, 0, TWICE, Ok(())),
    (COUNTED_ONCE, 0, TWICE, COUNTED_WRONG),
    (INODE_TWICE, 0, ONCE, OUT_OF_ORDER),
];

#[test]
fn a_repeated_child(rt: HostRuntime) {
    for walk in NAMED_TWICE {
        assert!(rt;
            is_line::<FsPlainKey>(rt.alloc(), PLAIN, walk) == Ok(true)
                && is_line::<FsKey>(rt.alloc(), HASHED, walk) == Ok(true)
        );
    }
}

// A tree, a rank from which its list is taken, the entries, and how the walk ends.
type Search = (&'static [Node], Option<Rank>, &'static [Item], End);

const MISSING: End = Err(Stop::Found(WalkFault::Unnamed { oid: 9 }));

// Where a child isn't there, the entries before it are given, and it is named when it comes next, unless the search goes past
// it.
const SEARCHES: &[Search] = &[
    (THREE_LEVELS, None, THREE_LEVELS_LIST, Ok(())),
    (THREE_LEVELS, rank!(0, 0), THREE_LEVELS_LIST, Ok(())),
    (
        THREE_LEVELS,
        rank!(3, 0),
        &[(0, 3, 0), (0, 5, 0), (0, 7, 0)],
        Ok(()),
    ),
    (THREE_LEVELS, rank!(3, 1), &[(0, 5, 0), (0, 7, 0)], Ok(())),
    (THREE_LEVELS, rank!(7, 0), &[(0, 7, 0)], Ok(())),
    (THREE_LEVELS, rank!(8, 0), &[], Ok(())),
    (NO_KEY, None, &[], Ok(())),
    (MISSING_CHILD, None, &[(0, 1, 0)], MISSING),
    (MISSING_CHILD, rank!(2, 0), &[], MISSING),
    (MISSING_CHILD, rank!(4, 0), &[], MISSING),
    (MISSING_CHILD, rank!(5, 1), &[], Ok(())),
];

#[test]
fn flat_lists_and_a_missing_child(rt: HostRuntime) {
    for (i, search) in SEARCHES.iter().enumerate() {
        assert!(rt;
            is_flat::<QueueKey>(rt.alloc(), QUEUE, search) == Ok(true),
            "search {i}"
        );
    }
}

const LARGER: Site = Site {
    block_size: 16384,
    ..SITE
};

// Adds the entries of the flat list of the tree in block 1 of larger blocks, from where a new cursor stands.
fn larger_list(alloc: Global, src: &mut MemSource, items: &mut Vec<Item>) -> End
    requires { 131072 ≤ length src.old.bytes }
{
    let mut cursor = Cursor::<QueueKey, Physical>::new(alloc, src, PHYSICAL, 1, LARGER)?;
    let end = add_entries(&mut cursor, src, items);
    drop(cursor);
    end
}

const SEVEN_ALONE: &[Item] = &[(0, 7, 0)];

fn is_larger_list(alloc: Global) -> Result<bool, AllocError> {
    let image = tree_image(alloc, 16384, QUEUE, KEY_SEVEN)?;
    if image.len() < 131072 {
        return Ok(false);
    }
    let mut items = Vec::new(alloc);
    let end = larger_list(
        alloc,
        &mut MemSource::new(image, Vec::new(alloc)),
        &mut items,
    );
    Ok(end == Ok(()) && items.as_slice() == SEVEN_ALONE)
}

#[test]
fn larger_blocks(rt: HostRuntime) {
    assert!(rt; is_larger_list(rt.alloc()) == Ok(true));
}

// Searches among records. The kind stands in the high bits of a key's first word, and counts after the id. Equal ranks over
// two leaves are given from the first of them on.
const BY_RANKS: &[Search] = &[
    (TWO_RANKS, rank!(16, 3), &[(0, 16, 3)], Ok(())),
    (
        EQUAL_RANKS,
        rank!(2, 9),
        &[(0, 2, 9), (0, 2, 9), (0, 16, 3)],
        Ok(()),
    ),
];

#[test]
fn searches_by_ranks(rt: HostRuntime) {
    for search in BY_RANKS {
        assert!(rt;
            is_flat::<FsKey>(rt.alloc(), HASHED, search) == Ok(true)
                && is_flat::<FsPlainKey>(rt.alloc(), PLAIN, search) == Ok(true)
        );
    }
}
