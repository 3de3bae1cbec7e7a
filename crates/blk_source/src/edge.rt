// The edge: a file as a source, a writer as a sink. No contract knows what a file holds, so a file tells nothing; what a
// writer's sink holds is what its writer tells.
ghost use Rattle.std.specs.Prelude.{◌≡◌, ◌≤◌, ◌+◌, List, ℕ, Some, IfOk, OnOk, OnErr, length};
ghost use Rattle.std.specs.Io.KnownBytes.{WriteAppends};
ghost use Rattle.apfs_model.specs.Counts.{one_more, Rose};
ghost use Rattle.apfs_model.specs.Source.{Copies};
ghost use Rattle.apfs_model.specs.Sink.{Wrote, WrotePart};
ghost use Rattle.blk_source.specs.Edge.{untold};

use crate::{BlockSource, Sink};
use apfs_model::{ReadFailed, WriteFailed};
use std::fs::File;
use std::io::{ErrorKind, Seek, SeekFrom, Write};
use std::os::unix::fs::FileExt;

/// A file or a block device. It tells nothing.
#[derive(Drop)]
pub struct FileSource {
    file: File,
    len: u64,
    reads: u64,
    faults: u64,
}

impl FileSource {
    /// A file by its length in bytes. `ReadFailed` where the length can't be asked for.
    pub fn new(mut file: File) -> Result<FileSource, ReadFailed>
        ensures reads { IfOk result (λ source. source.reads ≡ 0) }
        ensures faults { IfOk result (λ source. source.faults ≡ 0) }
    {
        match file.seek(SeekFrom::End(0)) {
            Ok(len) => Ok(FileSource {
                file,
                len,
                reads: 0,
                faults: 0,
            }),
            Err(_) => Err(ReadFailed),
        }
    }
}

impl BlockSource for FileSource {
    ghost bytes_len = { λ s. s.len };

    ghost bytes = { λ _. untold };

    ghost faults = { λ s. s.faults };

    ghost reads = { λ s. s.reads };

    ghost whole = { λ s image e. Prim.cc };

    fn size(&self) -> u64 {
        self.len
    }

    // A read that gives nothing before the end is a failure of `read_exact_at`.
    fn read_at(&mut self, at: u64, into: &mut [u8]) -> Result<(), ReadFailed>
        requires inside { at + length into.old ≤ self.old.len }
        requires some { 1 ≤ length into.old }
        requires short { length into.old ≤ 65536 }
        ensures found { (image : List ℕ) → untold ≡ Some image → OnOk result (Copies image at into.new) }
        ensures cause { OnErr result (Rose self.old.faults self.new.faults) }
        ensures bytes { untold ≡ untold }
        ensures size { self.new.len ≡ self.old.len }
        ensures later { self.old.faults ≤ self.new.faults }
        ensures reads { self.new.reads ≡ one_more self.old.reads }

        // The count of faults stays where the read succeeds.
        ensures faults { OnOk result (self.new.faults ≡ self.old.faults) }
    {
        self.reads = self.reads.saturating_add(1);
        match self.file.read_exact_at(into, at) {
            Ok(()) => Ok(()),
            Err(_) => {
                self.faults = self.faults.saturating_add(1);
                Err(ReadFailed)
            }
        }
    }
}

/// A writer. It tells what its writer tells: a terminal, a file and a pipe tell nothing.
#[derive(Drop)]
pub struct StdSink<T: Write + Drop> {
    writer: T,
    faults: u64,
}

impl<T: Write + Drop> StdSink<T> {
    /// A sink that puts into this writer.
    pub fn new(writer: T) -> StdSink<T>
        ensures writer { result.writer ≡ writer }
        ensures faults { result.faults ≡ 0 }
    {
        StdSink { writer, faults: 0 }
    }
}

impl<T: Write + Drop> Sink for StdSink<T> {
    ghost contents = { λ s. T.contents s.writer };

    ghost faults = { λ s. s.faults };

    fn put(&mut self, piece: &[u8]) -> Result<(), WriteFailed>
        ensures put { OnOk result (Wrote (T.contents self.old.writer) (T.contents self.new.writer) piece.now) }
        ensures part { WrotePart (T.contents self.old.writer) (T.contents self.new.writer) piece.now }
        ensures cause { OnErr result (Rose self.old.faults self.new.faults) }
        ensures later { self.old.faults ≤ self.new.faults }

        // The count of faults stays where the put succeeds.
        ensures faults { OnOk result (self.new.faults ≡ self.old.faults) }
    {
        match write_and_flush(&mut self.writer, piece) {
            Ok(()) => Ok(()),
            Err(why) => {
                self.faults = self.faults.saturating_add(1);
                Err(why)
            }
        }
    }
}

// Writes a front of a piece that isn't empty, and gives its length: 0 only where the write was interrupted. A write that
// takes nothing is a failure.
fn write_front<T: Write>(writer: &mut T, piece: &[u8]) -> Result<usize, WriteFailed>
    ensures bound { IfOk result (λ n. n ≤ length piece.now) }
    ensures bytes { WriteAppends (T.contents writer.old) (T.contents writer.new) result piece.now }
{
    match writer.write(piece) {
        Ok(0) => Err(WriteFailed),
        Ok(taken) => Ok(taken),
        Err(why) if why.kind() == ErrorKind::Interrupted => Ok(0),
        Err(_) => Err(WriteFailed),
    }
}

// Writes the whole piece.
fn write_whole<T: Write>(writer: &mut T, piece: &[u8]) -> Result<(), WriteFailed>
    ensures whole { OnOk result (Wrote (T.contents writer.old) (T.contents writer.new) piece.now) }
    ensures part { WrotePart (T.contents writer.old) (T.contents writer.new) piece.now }
{
    let mut rest = piece;
    for _ in 0..u64::MAX {
        if rest.is_empty() {
            return Ok(());
        }
        let taken = write_front(writer, rest)?;
        rest = &rest[taken..];
    }
    Err(WriteFailed)
}

// Writes the whole piece, and hands on what the writer keeps back.
fn write_and_flush<T: Write>(writer: &mut T, piece: &[u8]) -> Result<(), WriteFailed>
    ensures whole { OnOk result (Wrote (T.contents writer.old) (T.contents writer.new) piece.now) }
    ensures part { WrotePart (T.contents writer.old) (T.contents writer.new) piece.now }
{
    write_whole(writer, piece)?;
    match writer.flush() {
        Ok(()) => Ok(()),
        Err(_) => Err(WriteFailed),
    }
}
