// What is gathered of the views and the volumes that were found right: numbers, and notes of each kind.

use crate::notes::append;
use std::alloc::{AllocError, Global};
use std::marker::Model;
use tree_rules::ViewTally;
use view_rules::Note;

/// The numbers of views and of records, and the notes of each kind but those on candidates.
#[derive(Drop)]
pub(crate) struct Gathered {
    view_count: u64,
    record_count: u64,
    hash_notes: Vec<Note>,
    unreached_notes: Vec<Note>,
    unnamed_notes: Vec<Note>,
    count_notes: Vec<Note>,
}

impl Model for Gathered {
    ghost use Rattle.apfs_check.specs.Held.{Held};

    ghost Value = { Held };

    ghost view = { λ a. record { views = a.view_count; records = a.record_count; hashes = a.hash_notes.items; unreached = a.unreached_notes.items; unnamed = a.unnamed_notes.items; counts = a.count_notes.items } };
}

impl Gathered {
    ghost use Rattle.std.specs.Prelude.{◌≡◌, ◌+◌, ◌∷◌, ◌++◌, [], filter, OnOk, IfOk};
    ghost use Rattle.apfs_model.specs.Counts.{given};
    ghost use Rattle.view_rules.specs.declared.notes.Note.TheVariants as noted;
    ghost use Rattle.apfs_check.specs.Held.{nothing_held};
    ghost use Rattle.apfs_check.specs.NoteTests.{is_hash_note, is_unnamed_note};

    /// Nothing yet.
    pub(crate) fn new(alloc: Global) -> Gathered
        ensures { result ≡ nothing_held }
    {
        Gathered {
            view_count: 0,
            record_count: 0,
            hash_notes: Vec::new(alloc),
            unreached_notes: Vec::new(alloc),
            unnamed_notes: Vec::new(alloc),
            count_notes: Vec::new(alloc),
        }
    }

    /// Counts views.
    pub(crate) fn count_views(&mut self, views: u64)
        ensures { self.new ≡ record self.old { views = given (self.old.views + views) } }
    {
        self.view_count = self.view_count.saturating_add(views);
    }

    /// Counts records.
    pub(crate) fn count_records(&mut self, records: u64)
        ensures { self.new ≡ record self.old { records = given (self.old.records + records) } }
    {
        self.record_count = self.record_count.saturating_add(records);
    }

    // Keeps a note of a view.
    fn put(&mut self, note: Note) -> Result<(), AllocError>
        ensures hashes { OnOk result (self.new.hashes ≡ self.old.hashes ++ filter is_hash_note (note ∷ [])) }
        ensures unnamed { OnOk result (self.new.unnamed ≡ self.old.unnamed ++ filter is_unnamed_note (note ∷ [])) }
        ensures views { self.new.views ≡ self.old.views }
        ensures records { self.new.records ≡ self.old.records }
        ensures unreached { self.new.unreached ≡ self.old.unreached }
        ensures counts { self.new.counts ≡ self.old.counts }
    {
        match note {
            Note::Hash(at) => self.hash_notes.push(Note::Hash(at))?,
            Note::Unnamed(at) => self.unnamed_notes.push(Note::Unnamed(at))?,
            Note::Skipped { .. } => {}
            Note::Unreached { .. } => {}
            Note::Count { .. } => {}
        }
        Ok(())
    }

    // Keeps the notes of a view.
    fn put_all(&mut self, notes: Vec<Note>) -> Result<(), AllocError>
        ensures hashes { OnOk result (self.new.hashes ≡ self.old.hashes ++ filter is_hash_note notes.items) }
        ensures unnamed { OnOk result (self.new.unnamed ≡ self.old.unnamed ++ filter is_unnamed_note notes.items) }
        ensures views { self.new.views ≡ self.old.views }
        ensures records { self.new.records ≡ self.old.records }
        ensures unreached { self.new.unreached ≡ self.old.unreached }
        ensures counts { self.new.counts ≡ self.old.counts }
    {
        'notes: for note in notes {
            self.put(note)?;
        }
        Ok(())
    }

    /// Keeps what is told of a view.
    pub(crate) fn put_view(&mut self, tally: ViewTally) -> Result<(), AllocError>
        ensures records { OnOk result (self.new.records ≡ given (self.old.records + tally.records)) }
        ensures hashes { OnOk result (self.new.hashes ≡ self.old.hashes ++ filter is_hash_note tally.notes.items) }
        ensures unnamed { OnOk result (self.new.unnamed ≡ self.old.unnamed ++ filter is_unnamed_note tally.notes.items) }
        ensures views { self.new.views ≡ self.old.views }
        ensures unreached { self.new.unreached ≡ self.old.unreached }
        ensures counts { self.new.counts ≡ self.old.counts }
    {
        let ViewTally { records, notes } = tally;
        self.count_records(records);
        self.put_all(notes)
    }

    /// Makes room for so many notes on unreached blocks.
    pub(crate) fn reserve_unreached(&mut self, notes: usize) -> Result<(), AllocError>
        ensures { OnOk result (self.new ≡ self.old) }
    {
        self.unreached_notes.reserve_exact(notes)?;
        Ok(())
    }

    /// Keeps a note on unreached blocks of the volume in a slot.
    pub(crate) fn put_unreached(&mut self, slot: u32, run: (u64, u64)) -> Result<(), AllocError>
        ensures { OnOk result (self.new ≡ record self.old { unreached = self.old.unreached ++ noted.Unreached slot run.0 run.1 ∷ [] }) }
    {
        self.unreached_notes.push(Note::Unreached {
            slot,
            block: run.0,
            length: run.1,
        })?;
        Ok(())
    }

    /// Keeps a note on the count of a range of the volume in a slot.
    pub(crate) fn put_count(
        &mut self,
        slot: u32,
        block: u64,
        stored: i32,
        streams: u64,
    ) -> Result<(), AllocError>
        ensures { OnOk result (self.new ≡ record self.old { counts = self.old.counts ++ noted.Count slot block stored streams ∷ [] }) }
    {
        self.count_notes.push(Note::Count {
            slot,
            block,
            stored,
            streams,
        })?;
        Ok(())
    }

    /// How many views there are.
    pub(crate) fn views(&self) -> u64
        ensures { result ≡ self.now.views }
    {
        self.view_count
    }

    /// How many records there are.
    pub(crate) fn records(&self) -> u64
        ensures { result ≡ self.now.records }
    {
        self.record_count
    }

    /// All notes, in the order of their kinds, after those on candidates.
    pub(crate) fn into_notes(self, skipped: Vec<Note>) -> Result<Vec<Note>, AllocError>
        ensures { IfOk result (λ notes. notes.items ≡ skipped.items ++ (self.hashes ++ (self.unreached ++ (self.unnamed ++ self.counts)))) }
    {
        let Gathered {
            view_count: _,
            record_count: _,
            hash_notes,
            unreached_notes,
            unnamed_notes,
            count_notes,
        } = self;
        let mut notes = skipped;
        append(&mut notes, hash_notes)?;
        append(&mut notes, unreached_notes)?;
        append(&mut notes, unnamed_notes)?;
        append(&mut notes, count_notes)?;
        Ok(notes)
    }
}
