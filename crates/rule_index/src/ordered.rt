// Lists that are lent in the order of their ids, in which few items are looked up.
ghost use Rattle.std.specs.Prelude.{◌≡◌, ◌==◌, count_by, filter, find, IfSome};
ghost use Rattle.std.specs.Option.{option_copied};
ghost use Rattle.std.specs.List.Sorted.{IsNonDecreasingBy};
ghost use Rattle.rule_index.specs.Order.{hash_rank};

use id_lists::{NO_GUESS, OrderBy, are_in_order, below, count, up_to};
use std::marker::{Model, PhantomData};
use view_facts::{AttributeFact, EntryFact, ExtentFact, InodeFact, LinkFact, SiblingFact};

/// By the id of the inode.
pub struct ByInode;

impl OrderBy<InodeFact> for ByInode {
    ghost use Rattle.fs_record.specs.Facts.{Fact};
    ghost use Rattle.fs_record.specs.Inodes.{Inode};

    ghost id = { λ (f : Fact Inode). f.id };

    fn id(f: &InodeFact) -> u64 {
        f.id()
    }
}

/// By the directory of the entry.
pub struct ByDirectory;

impl OrderBy<EntryFact> for ByDirectory {
    ghost use Rattle.fs_record.specs.Facts.{Fact};
    ghost use Rattle.fs_record.specs.Entries.{Entry};

    ghost id = { λ (e : Fact Entry). e.id };

    fn id(e: &EntryFact) -> u64 {
        e.id()
    }
}

/// By the directory of the entry and its hash.
pub struct ByHash;

impl OrderBy<EntryFact> for ByHash {
    ghost id = { hash_rank };

    fn id(e: &EntryFact) -> u64 {
        rank(e)
    }
}

/// By the file of the attribute.
pub struct ByFile;

impl OrderBy<AttributeFact> for ByFile {
    ghost use Rattle.fs_record.specs.Facts.{Fact};
    ghost use Rattle.fs_record.specs.Attributes.{Attribute};

    ghost id = { λ (a : Fact Attribute). a.id };

    fn id(a: &AttributeFact) -> u64 {
        a.id()
    }
}

/// By the file of the link.
pub struct ByLinkedFile;

impl OrderBy<LinkFact> for ByLinkedFile {
    ghost use Rattle.fs_record.specs.Facts.{Fact};
    ghost use Rattle.fs_record.specs.Siblings.{Link};

    ghost id = { λ (l : Fact Link). l.what.file };

    fn id(l: &LinkFact) -> u64 {
        l.file()
    }
}

/// By the sibling of the map.
pub struct BySibling;

impl OrderBy<SiblingFact> for BySibling {
    ghost use Rattle.std.specs.Prelude.{ℕ};
    ghost use Rattle.fs_record.specs.Facts.{Fact};

    ghost id = { λ (m : Fact ℕ). m.id };

    fn id(m: &SiblingFact) -> u64 {
        m.id()
    }
}

/// By the stream of the extent.
pub struct ByStream;

impl OrderBy<ExtentFact> for ByStream {
    ghost use Rattle.fs_record.specs.Facts.{Fact};
    ghost use Rattle.fs_record.specs.declared.extents.FileExt.{FileExt};

    ghost id = { λ (f : Fact FileExt). f.id };

    fn id(f: &ExtentFact) -> u64 {
        f.id()
    }
}

/// The directory of an entry and its hash as one number, which is in their order as long as the ids of directories are below 2^42.
pub fn rank(e: &EntryFact) -> u64
    ensures { result ≡ hash_rank e.now }
{
    e.id()
        .wrapping_mul(1 << 22)
        .wrapping_add(u64::from(e.hash()))
}

/// Items in the order of their ids, which are lent.
#[derive(Drop)]
pub struct Ordered<'a, T, B: OrderBy<T>> {
    list: &'a [T],
    order: PhantomData<B>,
}

impl<'a, T, B: OrderBy<T>> Model for Ordered<'a, T, B> {
    ghost use Rattle.std.specs.Prelude.{List};
    ghost use Rattle.std.specs.List.Sorted.{IsNonDecreasingBy};

    ghost Value = { List T };

    ghost view = { λ a. a.list.now };

    ghost invariant = { λ a. IsNonDecreasingBy B.id a.list.now };
}

// The items of an id.
fn part<T, B: OrderBy<T>>(list: &[T], id: u64) -> &[T]
    requires { IsNonDecreasingBy B.id list.now }
    ensures { result.now ≡ filter (λ x. B.id x == id) list.now }
{
    let from = below::<T, B>(list, id, NO_GUESS);
    let to = up_to::<T, B>(list, id, from);
    &list[from..to]
}

impl<'a, T, B: OrderBy<T>> Ordered<'a, T, B> {
    /// Those of a list, where it is in the order of its ids.
    pub fn of(list: &'a [T]) -> Option<Ordered<'a, T, B>>
        ensures { IfSome result (λ made. made ≡ list.now) }
    {
        if !are_in_order::<T, B>(list) {
            return None;
        }
        Some(Ordered {
            list,
            order: PhantomData,
        })
    }

    /// Those of a list that is known to be in the order of its ids.
    pub fn known(list: &'a [T]) -> Ordered<'a, T, B>
        requires { IsNonDecreasingBy B.id list.now }
        ensures { result ≡ list.now }
    {
        Ordered {
            list,
            order: PhantomData,
        }
    }

    /// Those of an id.
    pub fn run(&self, id: u64) -> &'a [T]
        ensures { result.now ≡ filter (λ x. B.id x == id) self.now }
    {
        part::<T, B>(self.list, id)
    }

    /// How many there are of an id.
    pub fn count(&self, id: u64) -> usize
        ensures { result ≡ count_by (λ x. B.id x == id) self.now }
    {
        count::<T, B>(self.list, id, NO_GUESS)
    }

    /// The first of an id.
    pub fn first(&self, id: u64) -> Option<&'a T>
        ensures { option_copied result ≡ find (λ x. B.id x == id) self.now }
    {
        self.run(id).first()
    }
}
