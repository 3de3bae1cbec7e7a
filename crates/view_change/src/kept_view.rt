// What is kept of a view, and whether its facts are known to be in order.
ghost use Rattle.std.specs.Prelude.{◌≡◌, true};
ghost use Rattle.rule_index.specs.Order.{AreInOrder};

use crate::kept::Held;
use bt_node::TreeKey;
use fs_name::Names;
use rule_index::chain::are_in_order;
use std::alloc::Global;
use view_facts::Facts;

/// What is kept of a view: its leaves, and the facts that their records say.
#[derive(Drop)]
pub struct KeptView {
    pub(crate) held: Held,
    // Whether it is known that the facts are in order.
    pub(crate) in_order: bool,
    pub(crate) ghost order: { in_order ≡ true → AreInOrder held.facts },
}

/// Whether it is known, or shows by a look at all, that some facts are in order.
pub(crate) fn are_known(known: bool, facts: &Facts) -> bool
    requires { known ≡ true → AreInOrder facts.now }
    ensures { result ≡ true → AreInOrder facts.now }
{
    known || are_in_order(facts)
}

impl KeptView {
    ghost use Rattle.std.specs.Prelude.{ℕ, List, [], IsTrue};
    ghost use Rattle.obj_base.specs.declared.site.Site.{Site};
    ghost use Rattle.view_change.specs.Kept.{facts_of, records_kept, IsKeptView};

    /// What is kept of a view without leaves.
    pub fn none<K: TreeKey>(alloc: Global, names: Names) -> KeptView
        ensures kept { (site : Site) (image : List ℕ) → IsKeptView K.shape site image names [] result }
    {
        KeptView {
            held: Held::nothing::<K>(alloc, names),
            in_order: false,
        }
    }

    /// The facts.
    pub fn facts(&self) -> &Facts
        ensures { result.now ≡ facts_of self.now }
    {
        &self.held.facts
    }

    /// Whether it is known that the facts are in order.
    pub fn is_in_order(&self) -> bool
        ensures { IsTrue result → AreInOrder (facts_of self.now) }
    {
        self.in_order
    }

    /// The number of records, or the greatest number where they are more.
    pub fn records(&self) -> u64
        ensures { result ≡ records_kept self.now }
    {
        self.held.records
    }
}
