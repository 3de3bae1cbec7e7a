// Pairs of a file and a directory, in order.
ghost use Rattle.std.specs.Prelude.{◌≡◌, [], true, ℕ, Bool, count_by, IfOk};
ghost use Rattle.rule_index.specs.Homes.{IsHomeIn};

use crate::homes::Home;
use blk_source::NoMemory;
use id_lists::{IdList, OrderBy};
use std::alloc::Global;
use std::marker::Model;

/// By the file.
struct ByFile;

impl OrderBy<(u64, u64)> for ByFile {
    ghost id = { λ (p : ℕ × ℕ). p.0 };

    fn id(pair: &(u64, u64)) -> u64 {
        pair.0
    }
}

/// Pairs of a file and a directory in the order of their files, so that searches find those of a file.
#[derive(Drop)]
pub(crate) struct Pairs {
    list: IdList<(u64, u64), ByFile>,
}

impl Model for Pairs {
    ghost use Rattle.std.specs.Prelude.{List, ℕ};

    ghost Value = { List (ℕ × ℕ) };

    ghost view = { λ pairs. pairs.list };
}

impl Pairs {
    /// The same pairs, in order.
    pub(crate) fn of(alloc: Global, list: Vec<(u64, u64)>) -> Result<Pairs, NoMemory>
        ensures { IfOk result (λ pairs. (test : ℕ × ℕ → Bool) → count_by test pairs ≡ count_by test list.items) }
    {
        let mut list = list;
        list.sort_unstable();
        let list = IdList::of(alloc, list)?;
        Ok(Pairs { list })
    }

    /// Whether there are none.
    pub(crate) fn is_empty(&self) -> bool
        ensures { result ≡ true → self.now ≡ [] }
    {
        self.list.as_slice().is_empty()
    }

    /// The pairs of a file: how many, and the directory of the first.
    pub(crate) fn home(&self, file: u64) -> Home
        ensures { IsHomeIn self.now file result }
    {
        let Some(at) = self.list.place(file) else {
            return Home {
                entries: 0,
                directory: 0,
            };
        };
        Home {
            entries: self.list.count(file) as u64,
            directory: self.list.as_slice()[at].1,
        }
    }
}
