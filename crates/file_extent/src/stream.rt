// The stream of a file, or of an attribute, that was opened.

use crate::read::fill;
use crate::start::extents_in;
use crate::{CopyFault, StreamStop};
use blk_source::{BlockSource, ReadFailed, Sink};
use fs_record::FileExt;
use obj_base::{Site, Stop};
use std::alloc::Global;
use std::marker::Model;
use vol_view::{View, Volume};

// The bytes that are copied at once.
const PIECE: usize = 65536;

/// A stream: its extents, sorted by where they start, and its size in bytes. It holds no source: each call that reads is
/// handed the source from which it was opened.
#[derive(Drop)]
pub struct Stream {
    site: Site,
    extents: Vec<FileExt>,
    size: u64,
}

impl Model for Stream {
    ghost use Rattle.file_extent.specs.Streams.{Opened};
    ghost use Rattle.file_extent.specs.Laid.{AreLaid};

    ghost Value = { Opened };

    ghost view = { λ a. record { site = a.site; extents = a.extents.items; size = a.size } };

    ghost invariant = { λ a. AreLaid a.site a.extents.items };
}

impl Stream {
    ghost use Rattle.std.specs.Prelude.{◌≡◌, ◌+◌, ◌-◌, ◌<◌, ◌≤◌, ℕ, List, Some, true, length, take, OnOk, OnErr, IfOk, IfErr, IsErrOf};
    ghost use Rattle.apfs_model.specs.Counts.{Rose};
    ghost use Rattle.apfs_model.specs.Kept.{IsKept};
    ghost use Rattle.apfs_model.specs.Sink.{Wrote, WrotePart};
    ghost use Rattle.obj_base.specs.Site.{IsSiteFor};
    ghost use Rattle.file_extent.specs.Streams.{bytes_from, stream_bytes};
    ghost use Rattle.file_extent.specs.Opened.{read_len};
    ghost use Rattle.file_extent.specs.Copied.{CopiedWhole, CopiedFront, Copied};
    ghost use Rattle.obj_base.specs.Stops.{Tells, IsFree};
    ghost use Rattle.obj_base.specs.declared.stop.Stop.TheVariants as stops;
    ghost use Rattle.vol_view.specs.Views.{is_view_ordered};
    ghost use Rattle.file_extent.specs.Stops.{IsStreamStop};
    ghost use Rattle.file_extent.specs.Opening.{IsStreamFeature, IsStreamSound, IsOpened};
    ghost use Rattle.file_extent.specs.declared.stop.CopyFault.TheVariants.{ReadFault, WriteFault};

    /// Opens the stream of an id, with a size in bytes, in a view (Data Streams): collects its extents by a search to the
    /// first of them and a walk over them. `Walk` and `Extent` tell why the tree can't be walked or a record can't be read,
    /// `Order` and `Outside` that the extents of this stream aren't ordered or leave the container.
    pub fn start<S: BlockSource>(
        alloc: Global,
        src: &mut S,
        volume: &Volume,
        view: &View,
        id: u64,
        size: u64,
        site: &Site,
    ) -> Result<Stream, Stop<StreamStop>>
        requires { IsSiteFor site.now (S.bytes_len src.old) }
        ensures clear { (image : List ℕ) → S.bytes src.old ≡ Some image → is_view_ordered image site.now volume.now view.now ≡ true → IfOk result (IsOpened image site.now volume.now view.now id size) }
        ensures same { IfOk result (λ stream. (stream.site ≡ site.now) × (stream.size ≡ size)) }
        ensures present { (image : List ℕ) → S.bytes src.old ≡ Some image → IfErr result (Tells (IsStreamStop image site.now volume.now view.now id) (IsStreamFeature image site.now volume.now view.now)) }
        ensures exact { (image : List ℕ) → S.bytes src.old ≡ Some image → IsStreamSound image site.now volume.now view.now id → IfErr result IsFree }
        ensures cause { IsErrOf result stops.ReadFault → Rose (S.faults src.old) (S.faults src.new) }
        ensures kept { IsKept S.bytes S.bytes_len S.faults src.old src.new }
    {
        match extents_in(alloc, src, volume, view, site, id) {
            Ok(extents) => Ok(Stream {
                site: *site,
                extents,
                size,
            }),
            Err(stop) => Err(stop),
        }
    }

    /// Its size in bytes.
    pub fn size(&self) -> u64
        ensures { result ≡ self.now.size }
    {
        self.size
    }

    // How many bytes a read of so many gives from a place on.
    fn len_at(&self, offset: u64, wanted: usize) -> usize
        ensures count { result ≡ read_len self.now.size offset wanted }
        ensures fits { offset + result < 18446744073709551616 }
    {
        let left = self.size.saturating_sub(offset);
        if left < wanted as u64 {
            left as usize
        } else {
            wanted
        }
    }

    /// Puts the bytes from byte `offset` on at the start of `into`, and says how many: the fewer of what `into` takes and
    /// what is left of the size, none past the end (Data Streams, j_file_extent_val_t). A hole and what no extent covers
    /// are zeros. Costs a search and one read for each run of blocks that it meets. After an error what `into` holds isn't
    /// said. Takes no memory.
    pub fn read_into<S: BlockSource>(
        &self,
        src: &mut S,
        offset: u64,
        into: &mut [u8],
    ) -> Result<usize, ReadFailed>
        requires { IsSiteFor self.now.site (S.bytes_len src.old) }
        ensures count { IfOk result (λ n. n ≡ read_len self.now.size offset (length into.old)) }
        ensures found { (image : List ℕ) → S.bytes src.old ≡ Some image → IfOk result (λ n. take n into.new ≡ bytes_from self.now.site.block_size image self.now.extents offset n) }
        ensures cause { OnErr result (Rose (S.faults src.old) (S.faults src.new)) }
        ensures kept { IsKept S.bytes S.bytes_len S.faults src.old src.new }
    {
        let len = self.len_at(offset, into.len());
        if len == 0 {
            return Ok(0);
        }
        fill(src, &self.site, &self.extents, offset, &mut into[..len])?;
        Ok(len)
    }

    // Copies a piece of the stream, from byte `at` on: where the next one starts.
    fn copy_piece<S: BlockSource, W: Sink>(
        &self,
        src: &mut S,
        at: u64,
        piece: &mut [u8],
        out: &mut W,
    ) -> Result<u64, CopyFault>
        requires site { IsSiteFor self.now.site (S.bytes_len src.old) }
        requires low { at < self.now.size }
        requires room { 0 < length piece.old }
        ensures next { IfOk result (λ n. (at < n) × (n ≤ self.now.size)) }
        ensures put { IfOk result (λ n. CopiedWhole (W.contents out.old) (W.contents out.new) (S.bytes src.old) (λ image. bytes_from self.now.site.block_size image self.now.extents at (n - at))) }
        ensures part { OnErr result (CopiedFront (W.contents out.old) (W.contents out.new) (S.bytes src.old) (λ image. bytes_from self.now.site.block_size image self.now.extents at (self.now.size - at))) }
        ensures read_cause { IsErrOf result ReadFault → Rose (S.faults src.old) (S.faults src.new) }
        ensures write_cause { IsErrOf result WriteFault → Rose (W.faults out.old) (W.faults out.new) }
        ensures kept { IsKept S.bytes S.bytes_len S.faults src.old src.new }
        ensures later { W.faults out.old ≤ W.faults out.new }
    {
        let _end = self.size;
        let n = self.read_into(src, at, piece)?;
        match out.put(&piece[..n]) {
            Ok(()) => Ok(at + n as u64),
            Err(_) => Err(CopyFault::WriteFault),
        }
    }

    /// Copies the whole stream into a sink, in pieces of at most 65,536 bytes. After an error the sink has a prefix of the
    /// bytes. Where the source doesn't tell its bytes, one part of which nothing is known was put. Takes no memory.
    pub fn copy_to<S: BlockSource, W: Sink>(
        &self,
        src: &mut S,
        out: &mut W,
    ) -> Result<(), CopyFault>
        requires { IsSiteFor self.now.site (S.bytes_len src.old) }
        ensures text { Copied (W.contents out.old) (W.contents out.new) (S.bytes src.old) (λ image. stream_bytes self.now.site.block_size image self.now.extents self.now.size) result }
        ensures put { (image : List ℕ) → S.bytes src.old ≡ Some image → OnOk result (Wrote (W.contents out.old) (W.contents out.new) (stream_bytes self.now.site.block_size image self.now.extents self.now.size)) }
        ensures part { (image : List ℕ) → S.bytes src.old ≡ Some image → OnErr result (WrotePart (W.contents out.old) (W.contents out.new) (stream_bytes self.now.site.block_size image self.now.extents self.now.size)) }
        ensures read_cause { IsErrOf result ReadFault → Rose (S.faults src.old) (S.faults src.new) }
        ensures write_cause { IsErrOf result WriteFault → Rose (W.faults out.old) (W.faults out.new) }
        ensures kept { IsKept S.bytes S.bytes_len S.faults src.old src.new }
        ensures later { W.faults out.old ≤ W.faults out.new }
    {
        let mut piece = [0u8; PIECE];
        let mut at = 0;
        'pieces: while at < self.size {
            at = match self.copy_piece(src, at, &mut piece, out) {
                Ok(next) => next,
                Err(fault) => return Err(fault),
            };
        }
        Ok(())
    }
}
