// What is kept of an attribute's contents.
ghost use Rattle.std.specs.Prelude.{◌≡◌, length, IfOk, IsTrue};
ghost use Rattle.fs_name.specs.Text as names;
ghost use Rattle.fs_record.specs.Attributes.{Embedded, Streamed};
ghost use Rattle.view_rules.specs.Inodes as spec;
ghost use Rattle.view_facts.specs.Contents.{body_of};

use blk_source::NoMemory;
use std::alloc::Global;

/// The name of the attribute that has the target of a symbolic link (Extended Attributes, SYMLINK_EA_NAME).
pub(crate) const TARGET_NAME: &str = "com.apple.fs.symlink";

/// The least size of a stream that is too large, in bytes.
const LARGE_SIZE: u64 = 0x8000_0000_0000_0000;

/// What is kept of an attribute's contents: the bytes that stand in its record, or the size of its stream.
#[derive(Drop)]
pub(crate) enum Contents {
    Embedded(Vec<u8>),
    Stream { id: u64, size: u64 },
}

// How many zeros some bytes have.
fn zeros(bytes: &[u8]) -> usize
    ensures { result ≡ length (names.zeros bytes.now) }
{
    bytes.iter().filter(|b| **b == 0).count()
}

// Whether some bytes are a target.
fn is_target(bytes: &[u8]) -> bool
    ensures { result ≡ spec.is_target bytes.now }
{
    bytes.len() >= 2 && bytes[bytes.len() - 1] == 0 && zeros(bytes) == 1
}

/// Whether some contents are a target that stands in the record.
pub(crate) fn holds_target(contents: &Contents) -> bool
    ensures { result ≡ spec.holds_target (body_of contents.now) }
{
    match contents {
        Contents::Embedded(bytes) => is_target(bytes),
        Contents::Stream { id: _, size: _ } => false,
    }
}

/// Whether some contents are a stream of 2^63 bytes or more.
pub(crate) fn is_large(contents: &Contents) -> bool
    ensures { result ≡ spec.is_large_body (body_of contents.now) }
{
    match contents {
        Contents::Embedded(_) => false,
        Contents::Stream { id: _, size } => *size >= LARGE_SIZE,
    }
}

// Whether some contents are these bytes of a record.
fn is_embedded(contents: &Contents, bytes: &[u8]) -> bool
    ensures { IsTrue result → body_of contents.now ≡ Embedded bytes.now }
{
    match contents {
        Contents::Embedded(others) => others.as_slice() == bytes,
        Contents::Stream { id: _, size: _ } => false,
    }
}

// Whether some contents are the stream of an id, of a size.
fn is_stream(contents: &Contents, stream: u64, bytes: u64) -> bool
    ensures { IsTrue result → body_of contents.now ≡ Streamed stream bytes }
{
    match contents {
        Contents::Embedded(_) => false,
        Contents::Stream { id, size } => *id == stream && *size == bytes,
    }
}

/// Whether two contents are the same.
pub(crate) fn are_same(contents: &Contents, others: &Contents) -> bool
    ensures { IsTrue result → body_of contents.now ≡ body_of others.now }
{
    match others {
        Contents::Embedded(bytes) => is_embedded(contents, bytes),
        Contents::Stream { id, size } => is_stream(contents, *id, *size),
    }
}

/// A copy of some contents.
pub(crate) fn copy_of(alloc: Global, contents: &Contents) -> Result<Contents, NoMemory>
    ensures { IfOk result (λ copy. body_of copy ≡ body_of contents.now) }
{
    match contents {
        Contents::Embedded(bytes) => Ok(Contents::Embedded(Vec::from_slice(alloc, bytes)?)),
        Contents::Stream { id, size } => Ok(Contents::Stream {
            id: *id,
            size: *size,
        }),
    }
}
