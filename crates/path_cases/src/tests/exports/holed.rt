// A large hole is put piece by piece and not read.
ghost use Rattle.blk_folder.specs.Edge.{untold};

use crate::tests::exports::exported;
use crate::tests::made::{HOLE, Holds};
use apfs_model::WriteFailed;
use blk_folder::Folder;
use std::alloc::{AllocError, Global};
use std::test::Fail;

// The most bytes that are put at once.
const MOST: usize = 65_536;

// A folder that keeps no more than how many bytes were put, the longest piece, and of how many pieces the first byte isn't 0.
#[derive(Drop)]
struct Tally {
    bytes: u64,
    longest: usize,
    other: u64,
    writing: bool,
}

impl Folder for Tally {
    ghost contents = { λ _. untold };

    ghost faults = { λ _. 0 };

    ghost writing = { λ s. s.writing };

    fn make_dir(&mut self, path: &str) -> Result<(), WriteFailed> {
        let _ = path;
        self.writing = false;
        Ok(())
    }

    fn start_file(&mut self, path: &str) -> Result<(), WriteFailed> {
        let _ = path;
        self.writing = true;
        Ok(())
    }

    fn append(&mut self, piece: &[u8]) -> Result<(), WriteFailed> {
        self.bytes = self.bytes.saturating_add(piece.len() as u64);
        self.longest = self.longest.max(piece.len());
        if piece.first() != Some(&0) {
            self.other = self.other.saturating_add(1);
        }
        Ok(())
    }
}

// The numbers of the reads that are refused: all from the 200th on, so no more than a few blocks are read.
fn refused(alloc: Global) -> Result<Vec<u64>, AllocError> {
    let mut fails = Vec::new(alloc);
    for number in 200..1000u64 {
        fails.push(number)?;
    }
    Ok(fails)
}

#[test]
fn a_hole_is_put_piece_by_piece(rt: HostRuntime) -> Result<(), Fail> {
    let mut folder = Tally {
        bytes: 0,
        longest: 0,
        other: 0,
        writing: false,
    };
    let reads = refused(rt.alloc())?;
    let Ok(done) = exported(rt.alloc(), Holds::Hole, reads, &mut folder)?.end else {
        panic!(rt; "it stops");
    };
    assert!(rt; done.files == 1 && done.bytes == HOLE + 5);
    // `hello` is in the last piece.
    assert!(rt; folder.bytes == HOLE + 5 && folder.longest <= MOST && folder.other == 1);
    Ok(())
}
