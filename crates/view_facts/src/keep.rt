// What is kept of the items of a view's Line.
ghost use Rattle.std.specs.Prelude.{◌≡◌, ◌++◌, [], ◌∷◌, List, Some, true, false, option_map, IfOk, IsTrue};
ghost use Rattle.fs_name.specs.Normal.{are_hashed};
ghost use Rattle.bt_cursor.specs.Line.{Item};
ghost use Rattle.bt_cursor.specs.WholeTree.{child_id};
ghost use Rattle.bt_cursor.specs.Gathered.{shown};
ghost use Rattle.view_facts.specs.Kept.{IsKeptOf};
ghost use Rattle.view_facts.specs.Refusals.{or_this};

use crate::Facts;
use crate::adding::add_kept;
use crate::scope::Scope;
use blk_source::NoMemory;
use bt_cursor::{Keeper, LineItem};
use bt_keys::FsTreeKey;
use fs_name::Names;
use fs_record::RecFault;
use std::alloc::Global;
use std::marker::PhantomData;

/// A record that its reader refuses.
#[derive(Clone, Copy, PartialEq, Eq)]
pub(crate) struct Refusal {
    /// The number of its item in the Line, from 0.
    pub(crate) item: u64,
    pub(crate) why: RecFault,
}

/// The facts so far, how many items and records there were, and the first record that is refused.
#[derive(Drop)]
pub(crate) struct Keep<K: FsTreeKey, W: Scope> {
    pub(crate) alloc: Global,
    pub(crate) facts: Facts,
    pub(crate) items: u64,
    pub(crate) records: u64,
    pub(crate) refusal: Option<Refusal>,
    pub(crate) kind: PhantomData<K>,
    pub(crate) scope: PhantomData<W>,
    ghost hashed: { are_hashed facts.names ≡ K.HASHED },
}

impl<K: FsTreeKey, W: Scope> Keep<K, W> {
    /// Nothing is kept yet.
    pub(crate) fn new(alloc: Global, names: Names) -> Self
        requires { are_hashed names ≡ K.HASHED }
        ensures names { result.facts.names ≡ names }
        ensures none { IsKeptOf W.FILES result.facts result.items result.records result.refusal [] }
    {
        Keep {
            alloc,
            facts: Facts {
                names,
                inodes: Vec::new(alloc),
                entries: Vec::new(alloc),
                attributes: Vec::new(alloc),
                links: Vec::new(alloc),
                siblings: Vec::new(alloc),
                extents: Vec::new(alloc),
            },
            items: 0,
            records: 0,
            refusal: None,
            kind: PhantomData,
            scope: PhantomData,
        }
    }
}

// The refusal after one more record: the first.
fn noted(refusal: Option<Refusal>, item: u64, why: Option<RecFault>) -> Option<Refusal>
    ensures { result ≡ or_this refusal item why }
{
    if refusal.is_some() {
        return refusal;
    }
    match why {
        Some(why) => Some(Refusal { item, why }),
        None => None,
    }
}

impl<K: FsTreeKey, W: Scope> Keeper<K> for Keep<K, W> {
    ghost refuses = { λ _. false };

    ghost holds = { λ keep line. IsKeptOf W.FILES keep.facts keep.items keep.records keep.refusal line };

    fn keep(&mut self, item: LineItem<'_, K>) -> Result<bool, NoMemory>
        requires key { K.shape.read item.pair.key_bytes.now ≡ Some item.pair.key }
        requires child { item.child ≡ child_id (shown item.node item.at item.level item.pair.key_bytes.now (option_map (λ value. value.now) item.pair.value)) }
        ensures refused { IfOk result (λ kept. kept ≡ true) }
        ensures held { (line : List Item) → IsKeptOf W.FILES self.old.facts self.old.items self.old.records self.old.refusal line → IfOk result (λ kept. IsTrue kept → IsKeptOf W.FILES self.new.facts self.new.items self.new.records self.new.refusal (line ++ shown item.entry.node item.entry.at item.entry.level item.entry.pair.key_bytes.now (option_map (λ value. value.now) item.entry.pair.value) ∷ [])) }
    {
        let number = self.items;
        self.items = self.items.saturating_add(1);
        if item.level > 0 {
            return Ok(true);
        }
        let why = add_kept::<K, W>(self.alloc, &mut self.facts, &item.pair)?;
        self.refusal = noted(self.refusal, number, why);
        self.records = self.records.saturating_add(1);
        Ok(true)
    }
}
