// What a folder is.
ghost use Rattle.std.specs.Prelude.{◌≡◌, ◌≤◌, ℕ, Bool, true, false, List, [], Option, OnOk, OnErr};
ghost use Rattle.apfs_model.specs.Counts.{Rose};
ghost use Rattle.blk_folder.specs.Items.{Item, directory_at, file_at};
ghost use Rattle.blk_folder.specs.Put.{Added, MayHaveAdded, Appended, AppendedPart};

use apfs_model::WriteFailed;

/// Directories and files that are put one after the other. A folder has its contents, where it tells them, a count of how
/// often it failed, and is writing where its last item is a file to which bytes may be added. After a failure it isn't writing.
pub trait Folder {
    /// What was put so far, where it tells.
    ghost contents: { Self → Option (List Item) };

    /// How often it has failed, up to the greatest number of 64 bits.
    ghost faults: { Self → ℕ };

    /// Whether bytes may be added to its last item.
    ghost writing: { Self → Bool };

    /// Puts a directory, or fails with it put or not. A file that was written is at its end.
    fn make_dir(&mut self, path: &str) -> Result<(), WriteFailed>
        ensures made { OnOk result (Added (contents self.old) (contents self.new) (directory_at path.now)) }
        ensures part { MayHaveAdded (contents self.old) (contents self.new) (directory_at path.now) }
        ensures ends { writing self.new ≡ false }
        ensures cause { OnErr result (Rose (faults self.old) (faults self.new)) }
        ensures later { faults self.old ≤ faults self.new };

    /// Puts a file without bytes and begins to write it, or fails with it put or not.
    fn start_file(&mut self, path: &str) -> Result<(), WriteFailed>
        ensures started { OnOk result (Added (contents self.old) (contents self.new) (file_at path.now [])) }
        ensures part { MayHaveAdded (contents self.old) (contents self.new) (file_at path.now []) }
        ensures begins { OnOk result (writing self.new ≡ true) }
        ensures ends { OnErr result (writing self.new ≡ false) }
        ensures cause { OnErr result (Rose (faults self.old) (faults self.new)) }
        ensures later { faults self.old ≤ faults self.new };

    /// Adds a piece to the bytes of the last item, or fails with a front of it added.
    fn append(&mut self, piece: &[u8]) -> Result<(), WriteFailed>
        requires { writing self.old ≡ true }
        ensures appended { OnOk result (Appended (contents self.old) (contents self.new) piece.now) }
        ensures part { AppendedPart (contents self.old) (contents self.new) piece.now }
        ensures goes_on { OnOk result (writing self.new ≡ true) }
        ensures ends { OnErr result (writing self.new ≡ false) }
        ensures cause { OnErr result (Rose (faults self.old) (faults self.new)) }
        ensures later { faults self.old ≤ faults self.new };
}

/// What the program was handed for the folder.
#[derive(Drop)]
pub enum Given<F> {
    Nothing,
    Into(F),
}
