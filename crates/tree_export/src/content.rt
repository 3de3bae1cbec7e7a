// What an inode gives a folder.
ghost use Rattle.std.specs.Prelude.{◌≡◌};
ghost use Rattle.tree_export.specs.Parts as spec;

use fs_record::{Inode, StreamSize};
use path_read::withheld;
use path_search::KeptInode;

/// What an inode gives a folder.
#[derive(Clone, Copy, PartialEq, Eq)]
pub(crate) enum Content {
    Directory,
    /// A file that has no stream.
    Empty,
    /// A file with the stream of this id and size.
    Stream { id: u64, size: u64 },
    /// Nothing: it is no directory, nor a file whose contents can be given.
    Nothing,
}

// The content of a file whose stream has this id.
fn content_by(id: u64, stream: Option<StreamSize>) -> Content
    ensures { result ≡ spec.content_by id stream }
{
    match stream {
        None => Content::Empty,
        Some(stream) => Content::Stream {
            id,
            size: stream.size,
        },
    }
}

/// What an inode gives a folder.
#[tactic(auto, unfolding(crate::specs::Parts::content_of))]
pub(crate) fn content_of(inode: &Inode<'_>) -> Content
    ensures { result ≡ spec.content_of inode.now }
{
    let kept = KeptInode::of(inode);
    if kept.is_directory() {
        return Content::Directory;
    }
    match withheld(&kept) {
        Some(_) => Content::Nothing,
        None => content_by(inode.private_id(), inode.stream()),
    }
}
