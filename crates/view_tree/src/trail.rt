// Where a walk along rows is.
ghost use Rattle.std.specs.Prelude.{◌≡◌, ℕ, List, []};
ghost use Rattle.path_search.specs.declared.target.Target.{Target};
ghost use Rattle.view_tree.specs.Trails.{IsOn, path_of};

use std::alloc::Global;

/// Where a walk along the rows of a tree is: how many rows it has passed, and the path of the last of them.
#[derive(Drop)]
pub struct Trail {
    pub(crate) passed: usize,
    // With a slash after it, and empty before the first row.
    pub(crate) path: Vec<u8>,
}

impl Trail {
    /// Before the first row.
    pub fn new(alloc: Global) -> Trail
        ensures { (rows : List (List ℕ × Target)) → IsOn rows result }
    {
        Trail {
            passed: 0,
            path: Vec::new(alloc),
        }
    }

    /// Goes back to where it started.
    pub(crate) fn start(&mut self)
        ensures passed { self.new.passed ≡ 0 }
        ensures path { self.new.path.items ≡ [] }
    {
        self.passed = 0;
        self.path.clear();
    }

    /// The path of the row that it is at.
    pub fn path(&self) -> &[u8]
        ensures { result.now ≡ path_of self.now }
    {
        let end = self.path.len().saturating_sub(1);
        &self.path[..end]
    }
}
