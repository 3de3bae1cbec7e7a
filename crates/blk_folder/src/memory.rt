// A folder in memory, for tests.
ghost use Rattle.std.specs.Prelude.{◌≡◌, ◌+◌, ◌<◌, ◌≤◌, ◌↔◌, ◌⊎◌, ◌++◌, ◌∷◌, [], Some, true, false, length, slice_range, IfOk, IfSome, IfNone, IsErr, IsTrue, OnOk, OnErr, Contains};
ghost use Rattle.apfs_model.specs.Counts.{one_more, Rose};
ghost use Rattle.blk_folder.specs.Items.{directory_at, file_at};
ghost use Rattle.blk_folder.specs.Put.{Added, MayHaveAdded, Appended, AppendedPart};
ghost use Rattle.blk_folder.specs.Memory.{LacksPlace, LacksRoom, IsAt, IsDirectory, HasBytes};
ghost use Rattle.blk_folder.specs.Places as spec;

use crate::folder::Folder;
use apfs_model::{NoMemory, WriteFailed};
use std::alloc::Global;
use std::marker::Model;

// Where an item lies in the text of a folder: its path from `start`, its bytes from `path_end` up to the next item.
#[derive(Clone, Copy)]
struct Place {
    start: usize,
    path_end: usize,
    is_file: bool,
}

/// A folder in memory, which fails at the calls of certain numbers, counted from 1, and where its room is too small.
#[derive(Drop)]
pub struct MemFolder {
    // The path and the bytes of each item, one item after the other.
    text: Vec<u8>,
    places: Vec<Place>,
    items: usize,
    room: usize,
    fails: Vec<u64>,
    calls: u64,
    faults: u64,
    writing: bool,
}

impl Model for MemFolder {
    ghost use Rattle.std.specs.Prelude.{◌≡◌, ◌≤◌, true, vec_capacity, vec_len};
    ghost use Rattle.blk_folder.specs.Memory.{MemoryFolder, taken};
    ghost use Rattle.blk_folder.specs.Places.{items_in, AreIn, EndsInFile};

    ghost Value = { MemoryFolder };

    ghost view = { λ a. record { contents = items_in a.text.items a.places.items; items = a.items; room = a.room; fails = a.fails.items; calls = a.calls; faults = a.faults; writing = a.writing } };

    ghost invariant = { λ a. (a.room ≤ vec_capacity a.text) × (a.items ≤ vec_capacity a.places) × (vec_len a.places ≤ a.items) × (vec_len a.text ≤ a.room) × AreIn a.text.items a.places.items × (taken (items_in a.text.items a.places.items) ≡ vec_len a.text) × (a.writing ≡ true → EndsInFile (items_in a.text.items a.places.items)) };
}

impl MemFolder {
    /// An empty folder with room for so many items and for `room` bytes of paths and pieces, all of whose memory is taken here.
    pub fn new(
        alloc: Global,
        items: usize,
        room: usize,
        fails: Vec<u64>,
    ) -> Result<MemFolder, NoMemory>
        ensures contents { IfOk result (λ folder. folder.contents ≡ []) }
        ensures most { IfOk result (λ folder. folder.items ≡ items) }
        ensures room { IfOk result (λ folder. folder.room ≡ room) }
        ensures fails { IfOk result (λ folder. folder.fails ≡ fails.items) }
        ensures calls { IfOk result (λ folder. folder.calls ≡ 0) }
        ensures faults { IfOk result (λ folder. folder.faults ≡ 0) }
        ensures writing { IfOk result (λ folder. folder.writing ≡ false) }
    {
        let (Ok(text), Ok(places)) = (
            Vec::with_capacity(alloc, room),
            Vec::with_capacity(alloc, items),
        ) else {
            return Err(NoMemory);
        };
        Ok(MemFolder {
            text,
            places,
            items,
            room,
            fails,
            calls: 0,
            faults: 0,
            writing: false,
        })
    }

    /// How many items it has.
    pub fn len(&self) -> usize
        ensures { result ≡ length self.now.contents }
    {
        self.places.len()
    }

    /// The path of an item.
    pub fn path(&self, i: usize) -> &str
        requires { i < length self.now.contents }
        ensures { IsAt self.now.contents i (λ item. item.path ≡ result.now) }
    {
        let place = self.places[i];
        let path = part(&self.text, place.start, place.path_end);
        str::from_utf8(path).unwrap()
    }

    /// The bytes of a file; None of a directory.
    pub fn bytes(&self, i: usize) -> Option<&[u8]>
        requires { i < length self.now.contents }
        ensures file { IfSome result (λ piece. IsAt self.now.contents i (λ item. HasBytes item.held piece.now)) }
        ensures directory { IfNone result (IsAt self.now.contents i (λ item. IsDirectory item.held)) }
    {
        let place = self.places[i];
        if place.is_file {
            let end = end_at(&self.places, i, self.text.len());
            Some(part(&self.text, place.path_end, end))
        } else {
            None
        }
    }

    /// How often it has failed.
    pub fn fault_count(&self) -> u64
        ensures { result ≡ self.now.faults }
    {
        self.faults
    }
}

// Where the item of place i ends, in a text of a length.
fn end_at(places: &[Place], i: usize, len: usize) -> usize
    requires { i < length places.now }
    ensures { result ≡ spec.end_at places.now len i }
{
    match places.get(i + 1) {
        Some(next) => next.start,
        None => len,
    }
}

// The bytes from a place up to another.
fn part(text: &[u8], from: usize, to: usize) -> &[u8]
    requires order { from ≤ to }
    requires inside { to ≤ length text.now }
    ensures { result.now ≡ slice_range text.now from to }
{
    &text[from..to]
}

// Whether the call after so many is one of those that fail.
fn is_due(fails: &[u64], calls: u64) -> bool
    ensures { IsTrue result ↔ Contains fails.now (calls + 1) }
{
    match calls.checked_add(1) {
        Some(number) => fails.contains(&number),
        None => false,
    }
}

impl MemFolder {
    ghost use Rattle.std.specs.Prelude.{◌||◌, nat_lt};
    ghost use Rattle.blk_folder.specs.Memory.{taken, refused, extended, lengthened, empty_at};

    // Counts a call, and tells whether it is one of those that are refused.
    fn refuses_next(&mut self) -> bool
        ensures due { IsTrue result ↔ Contains self.old.fails (self.old.calls + 1) }
        ensures counts { self.new ≡ record self.old { calls = one_more self.old.calls } }
    {
        let refuses = is_due(&self.fails, self.calls);
        self.calls = self.calls.saturating_add(1);
        refuses
    }

    // Whether so many bytes don't fit.
    fn lacks_room(&self, bytes: usize) -> bool
        ensures { result ≡ nat_lt self.now.room (taken self.now.contents + bytes) }
    {
        self.room - self.text.len() < bytes
    }

    // Whether one item more doesn't fit.
    #[tactic(auto, using(crate::proofs::Held::length_items))]
    fn is_full(&self) -> bool
        ensures { result ≡ nat_lt self.now.items (length self.now.contents + 1) }
    {
        self.items <= self.places.len()
    }

    // Whether an item with a path of so many bytes doesn't fit.
    fn lacks_place(&self, bytes: usize) -> bool
        ensures { result ≡ (nat_lt self.now.items (length self.now.contents + 1) || nat_lt self.now.room (taken self.now.contents + bytes)) }
    {
        self.is_full() || self.lacks_room(bytes)
    }

    // Counts a failure, after which nothing is written.
    fn fail(&mut self) -> Result<(), WriteFailed>
        ensures fails { IsErr result }
        ensures counts { self.new ≡ record self.old { faults = one_more self.old.faults; writing = false } }
        ensures later { self.old.faults ≤ self.new.faults }
    {
        self.faults = self.faults.saturating_add(1);
        self.writing = false;
        Err(WriteFailed)
    }

    // Adds an item without bytes, which fits.
    fn add(&mut self, path: &str, is_file: bool)
        requires place { length self.old.contents + 1 ≤ self.old.items }
        requires room { taken self.old.contents + length path.now ≤ self.old.room }
        ensures { self.new ≡ record self.old { contents = self.old.contents ++ empty_at path.now is_file ∷ []; writing = is_file } }
    {
        let start = self.text.len();
        self.text.extend_from_slice(path.as_bytes()).unwrap();
        let path_end = self.text.len();
        let place = Place {
            start,
            path_end,
            is_file,
        };
        self.places.push(place).unwrap();
        self.writing = is_file;
    }

    // Puts an item without bytes.
    fn put(&mut self, path: &str, is_file: bool) -> Result<(), WriteFailed>
        ensures fails { IsErr result ↔ (Contains self.old.fails (self.old.calls + 1) ⊎ LacksPlace self.old (length path.now)) }
        ensures put { OnOk result (self.new ≡ extended self.old path.now is_file) }
        ensures same { OnErr result (self.new ≡ refused self.old) }
        ensures later { self.old.faults ≤ self.new.faults }
    {
        let refuses = self.refuses_next();
        if refuses || self.lacks_place(path.len()) {
            return self.fail();
        }
        self.add(path, is_file);
        Ok(())
    }

    // Adds a piece to the last item, a file, which fits.
    fn lengthen(&mut self, piece: &[u8])
        requires writing { self.old.writing ≡ true }
        requires room { taken self.old.contents + length piece.now ≤ self.old.room }
        ensures { self.new ≡ lengthened self.old piece.now }
    {
        self.text.extend_from_slice(piece).unwrap();
    }
}

impl Folder for MemFolder {
    ghost contents = { λ s. Some s.contents };

    ghost faults = { λ s. s.faults };

    ghost writing = { λ s. s.writing };

    fn make_dir(&mut self, path: &str) -> Result<(), WriteFailed>
        ensures made { OnOk result (Added (Some self.old.contents) (Some self.new.contents) (directory_at path.now)) }
        ensures part { MayHaveAdded (Some self.old.contents) (Some self.new.contents) (directory_at path.now) }
        ensures ends { self.new.writing ≡ false }
        ensures cause { OnErr result (Rose self.old.faults self.new.faults) }
        ensures later { self.old.faults ≤ self.new.faults }

        // It fails exactly at the numbers given and where what is left of the room is too small.
        ensures fails { IsErr result ↔ (Contains self.old.fails (self.old.calls + 1) ⊎ LacksPlace self.old (length path.now)) }
        ensures calls { self.new.calls ≡ one_more self.old.calls }
        ensures faults { OnOk result (self.new.faults ≡ self.old.faults) }
        ensures same { OnErr result (self.new.contents ≡ self.old.contents) }
        ensures same_items { self.new.items ≡ self.old.items }
        ensures same_room { self.new.room ≡ self.old.room }
        ensures same_fails { self.new.fails ≡ self.old.fails }
    {
        self.put(path, false)
    }

    fn start_file(&mut self, path: &str) -> Result<(), WriteFailed>
        ensures started { OnOk result (Added (Some self.old.contents) (Some self.new.contents) (file_at path.now [])) }
        ensures part { MayHaveAdded (Some self.old.contents) (Some self.new.contents) (file_at path.now []) }
        ensures begins { OnOk result (self.new.writing ≡ true) }
        ensures ends { OnErr result (self.new.writing ≡ false) }
        ensures cause { OnErr result (Rose self.old.faults self.new.faults) }
        ensures later { self.old.faults ≤ self.new.faults }

        // It fails exactly at the numbers given and where what is left of the room is too small.
        ensures fails { IsErr result ↔ (Contains self.old.fails (self.old.calls + 1) ⊎ LacksPlace self.old (length path.now)) }
        ensures calls { self.new.calls ≡ one_more self.old.calls }
        ensures faults { OnOk result (self.new.faults ≡ self.old.faults) }
        ensures same { OnErr result (self.new.contents ≡ self.old.contents) }
        ensures same_items { self.new.items ≡ self.old.items }
        ensures same_room { self.new.room ≡ self.old.room }
        ensures same_fails { self.new.fails ≡ self.old.fails }
    {
        self.put(path, true)
    }

    fn append(&mut self, piece: &[u8]) -> Result<(), WriteFailed>
        requires { self.old.writing ≡ true }
        ensures appended { OnOk result (Appended (Some self.old.contents) (Some self.new.contents) piece.now) }
        ensures part { AppendedPart (Some self.old.contents) (Some self.new.contents) piece.now }
        ensures goes_on { OnOk result (self.new.writing ≡ true) }
        ensures ends { OnErr result (self.new.writing ≡ false) }
        ensures cause { OnErr result (Rose self.old.faults self.new.faults) }
        ensures later { self.old.faults ≤ self.new.faults }

        // It fails exactly at the numbers given and where what is left of the room is too small.
        ensures fails { IsErr result ↔ (Contains self.old.fails (self.old.calls + 1) ⊎ LacksRoom self.old (length piece.now)) }
        ensures calls { self.new.calls ≡ one_more self.old.calls }
        ensures faults { OnOk result (self.new.faults ≡ self.old.faults) }
        ensures same { OnErr result (self.new.contents ≡ self.old.contents) }
        ensures same_items { self.new.items ≡ self.old.items }
        ensures same_room { self.new.room ≡ self.old.room }
        ensures same_fails { self.new.fails ≡ self.old.fails }
    {
        let refuses = self.refuses_next();
        if refuses || self.lacks_room(piece.len()) {
            return self.fail();
        }
        self.lengthen(piece);
        Ok(())
    }
}
