// What is told of a well-formed container.

use reach_sweep::Tally;
use std::marker::Model;
use view_rules::Note;

/// What is told of a well-formed container.
#[derive(Drop)]
pub struct Report {
    /// The transaction of the newest checkpoint.
    pub xid: u64,
    /// How many volumes there are.
    pub volumes: u32,
    /// How many views all volumes have: one each, and one for each snapshot.
    pub views: u64,
    /// What `account` answered: how many objects are named, and how many blocks are owned.
    pub tally: Tally,
    /// How many records all views have.
    pub records: u64,
    /// How many blocks aren't owned.
    pub free: u64,
    /// The notes, in the order of their kinds.
    pub notes: Vec<Note>,
}

impl Model for Report {
    ghost use Rattle.apfs_check.specs.Report.{Told};

    ghost Value = { Told };

    ghost view = { λ a. record { xid = a.xid; volumes = a.volumes; views = a.views; objects = a.tally.objects; records = a.records; used = a.tally.owned; free = a.free; notes = a.notes.items } };
}

impl Report {
    ghost use Rattle.std.specs.Prelude.{◌≡◌};

    /// How many objects are named.
    pub fn objects(&self) -> u64
        ensures { result ≡ self.now.objects }
    {
        self.tally.objects()
    }

    /// How many blocks are owned.
    pub fn used(&self) -> u64
        ensures { result ≡ self.now.used }
    {
        self.tally.owned()
    }
}
