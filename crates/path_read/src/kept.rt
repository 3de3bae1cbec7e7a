// Attributes in memory.
ghost use Rattle.std.specs.Prelude.{◌≡◌, ℕ, length, IfOk, bytes_eq};
ghost use Rattle.fs_record.specs.Reading.{body_seen};
ghost use Rattle.path_read.specs.Attributes.{body_len, is_called};
ghost use Rattle.path_read.specs.Parts.{body_of};

use apfs_model::{Bytes, NoMemory};
use fs_record::{Attr, AttrBody};
use std::alloc::Global;
use std::marker::Model;

/// What an attribute holds: the bytes themselves, or a stream by its id, of `size` bytes.
#[derive(Drop)]
pub(crate) enum KeptBody {
    Embedded(Bytes),
    Stream { id: u64, size: u64 },
}

/// An attribute.
#[derive(Drop)]
pub(crate) struct KeptAttribute {
    pub(crate) name: Bytes,
    pub(crate) body: KeptBody,
}

impl Model for KeptAttribute {
    ghost use Rattle.fs_record.specs.Attributes.{Attribute};
    ghost use Rattle.path_read.specs.Parts.{body_of};

    ghost Value = { Attribute };

    ghost view = { λ a. record { name = a.name; body = body_of a.body } };
}

// A copy of what an attribute holds.
fn body_kept(alloc: Global, body: AttrBody<'_>) -> Result<KeptBody, NoMemory>
    ensures { IfOk result (λ kept. body_of kept ≡ body_seen body.entry) }
{
    match body {
        AttrBody::Embedded(bytes) => match Bytes::from_slice(alloc, bytes) {
            Ok(bytes) => Ok(KeptBody::Embedded(bytes)),
            Err(_) => Err(NoMemory),
        },
        AttrBody::Stream { id, size } => Ok(KeptBody::Stream { id, size }),
    }
}

impl KeptBody {
    /// How many bytes it holds.
    pub(crate) fn len(&self) -> u64
        ensures { result ≡ body_len (body_of self.now) }
    {
        match self {
            KeptBody::Embedded(bytes) => bytes.as_slice().len() as u64,
            KeptBody::Stream { id: _, size } => *size,
        }
    }
}

impl KeptAttribute {
    /// A copy of an attribute.
    pub(crate) fn of(alloc: Global, attribute: &Attr<'_>) -> Result<KeptAttribute, NoMemory>
        ensures { IfOk result (λ kept. kept ≡ attribute.now) }
    {
        let name = Bytes::from_slice(alloc, attribute.name().as_bytes())?;
        let body = body_kept(alloc, attribute.body())?;
        Ok(KeptAttribute { name, body })
    }

    /// A copy of its name, and how many bytes it holds.
    pub(crate) fn told(&self, alloc: Global) -> Result<(Bytes, u64), NoMemory>
        ensures { IfOk result (λ told. told ≡ (self.now.name, body_len self.now.body)) }
    {
        let name = Bytes::from_slice(alloc, self.name.as_slice())?;
        Ok((name, self.body.len()))
    }

    /// Whether it has a name, byte by byte.
    pub(crate) fn is_called(&self, name: &str) -> bool
        ensures { result ≡ is_called name.now self.now }
    {
        self.name.as_slice() == name.as_bytes()
    }
}
