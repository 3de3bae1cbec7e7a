// The bytes of a file, put piece by piece.
ghost use Rattle.std.specs.Prelude.{◌≡◌, ◌-◌, ◌<◌, ◌≤◌, true, length, IfOk, OnOk, OnErr, IsErrOf, MatchResult};
ghost use Rattle.apfs_model.specs.Counts.{Rose};
ghost use Rattle.apfs_model.specs.Kept.{IsKept};
ghost use Rattle.obj_base.specs.Site.{IsSiteFor};
ghost use Rattle.file_extent.specs.Streams.{bytes_from, stream_bytes};
ghost use Rattle.file_extent.specs.declared.stop.CopyFault.TheVariants.{ReadFault, WriteFault};
ghost use Rattle.tree_export.specs.Parts.{AppendedWhole, AppendedFront};

use blk_folder::Folder;
use blk_source::BlockSource;
use file_extent::{CopyFault, Stream};

// The bytes that are put at once, of a long stream and of a short one. The most that a source is asked for at once, and a block.
const LONG: usize = 65536;

const SHORT: usize = 4096;

// Puts a piece of a stream at the end of the file that is written, from byte `at` on: where the next one starts.
fn put_piece<S: BlockSource, F: Folder>(
    src: &mut S,
    stream: &Stream,
    at: u64,
    piece: &mut [u8],
    folder: &mut F,
) -> Result<u64, CopyFault>
    requires site { IsSiteFor stream.now.site (S.bytes_len src.old) }
    requires low { at < stream.now.size }
    requires room { 0 < length piece.old }
    requires writing { F.writing folder.old ≡ true }
    ensures next { IfOk result (λ n. (at < n) × (n ≤ stream.now.size)) }
    ensures put { IfOk result (λ n. AppendedWhole (F.contents folder.old) (F.contents folder.new) (S.bytes src.old) (λ image. bytes_from stream.now.site.block_size image stream.now.extents at (n - at))) }
    ensures part { OnErr result (AppendedFront (F.contents folder.old) (F.contents folder.new) (S.bytes src.old) (λ image. bytes_from stream.now.site.block_size image stream.now.extents at (stream.now.size - at))) }
    ensures writes { OnOk result (F.writing folder.new ≡ true) }
    ensures read_cause { IsErrOf result ReadFault → Rose (S.faults src.old) (S.faults src.new) }
    ensures write_cause { IsErrOf result WriteFault → Rose (F.faults folder.old) (F.faults folder.new) }
    ensures kept { IsKept S.bytes S.bytes_len S.faults src.old src.new }
    ensures later { F.faults folder.old ≤ F.faults folder.new }
{
    let _end = stream.size();
    let n = stream.read_into(src, at, piece)?;
    match folder.append(&piece[..n]) {
        Ok(()) => Ok(at + n as u64),
        Err(_) => Err(CopyFault::WriteFault),
    }
}

// Puts the bytes of a stream at the end of the file that is written, with a buffer for a piece.
fn put_by<S: BlockSource, F: Folder>(
    src: &mut S,
    stream: &Stream,
    piece: &mut [u8],
    folder: &mut F,
) -> Result<(), CopyFault>
    requires site { IsSiteFor stream.now.site (S.bytes_len src.old) }
    requires room { 0 < length piece.old }
    requires writing { F.writing folder.old ≡ true }
    ensures text { MatchResult result (λ _. AppendedWhole (F.contents folder.old) (F.contents folder.new) (S.bytes src.old) (λ image. stream_bytes stream.now.site.block_size image stream.now.extents stream.now.size)) (λ _. AppendedFront (F.contents folder.old) (F.contents folder.new) (S.bytes src.old) (λ image. stream_bytes stream.now.site.block_size image stream.now.extents stream.now.size)) }
    ensures read_cause { IsErrOf result ReadFault → Rose (S.faults src.old) (S.faults src.new) }
    ensures write_cause { IsErrOf result WriteFault → Rose (F.faults folder.old) (F.faults folder.new) }
    ensures kept { IsKept S.bytes S.bytes_len S.faults src.old src.new }
    ensures later { F.faults folder.old ≤ F.faults folder.new }
{
    let mut at = 0;
    'pieces: while at < stream.size() {
        at = match put_piece(src, stream, at, piece, folder) {
            Ok(next) => next,
            Err(fault) => return Err(fault),
        };
    }
    Ok(())
}

/// Puts the bytes of a stream at the end of the file that is written, a piece at a time. What a hole has, and what no extent
/// covers, isn't read.
pub(crate) fn put_pieces<S: BlockSource, F: Folder>(
    src: &mut S,
    stream: &Stream,
    folder: &mut F,
) -> Result<(), CopyFault>
    requires site { IsSiteFor stream.now.site (S.bytes_len src.old) }
    requires writing { F.writing folder.old ≡ true }
    ensures text { MatchResult result (λ _. AppendedWhole (F.contents folder.old) (F.contents folder.new) (S.bytes src.old) (λ image. stream_bytes stream.now.site.block_size image stream.now.extents stream.now.size)) (λ _. AppendedFront (F.contents folder.old) (F.contents folder.new) (S.bytes src.old) (λ image. stream_bytes stream.now.site.block_size image stream.now.extents stream.now.size)) }
    ensures read_cause { IsErrOf result ReadFault → Rose (S.faults src.old) (S.faults src.new) }
    ensures write_cause { IsErrOf result WriteFault → Rose (F.faults folder.old) (F.faults folder.new) }
    ensures kept { IsKept S.bytes S.bytes_len S.faults src.old src.new }
    ensures later { F.faults folder.old ≤ F.faults folder.new }
{
    if stream.size() <= SHORT as u64 {
        let mut piece = [0u8; SHORT];
        return put_by(src, stream, &mut piece, folder);
    }
    let mut piece = [0u8; LONG];
    put_by(src, stream, &mut piece, folder)
}
