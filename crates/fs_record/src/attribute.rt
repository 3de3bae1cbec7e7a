// What an extended attribute's record says (Extended Attributes, j_xattr_key_t and j_xattr_val_t).
ghost use Rattle.std.specs.Prelude.{◌≡◌};
ghost use Rattle.fs_record.specs.Reading.{body_seen};

use std::marker::Model;

/// What an attribute holds.
#[derive(Clone, Copy, PartialEq, Eq)]
pub enum AttrBody<'a> {
    /// The bytes themselves.
    Embedded(&'a [u8]),
    /// A stream, by its id, of `size` bytes.
    Stream { id: u64, size: u64 },
}

/// An extended attribute.
#[derive(Drop)]
pub struct Attr<'a> {
    pub(crate) name: &'a str,
    pub(crate) body: AttrBody<'a>,
}

impl<'a> Model for Attr<'a> {
    ghost use Rattle.fs_record.specs.Attributes.{Attribute};
    ghost use Rattle.fs_record.specs.Reading.{body_seen};

    ghost Value = { Attribute };

    ghost view = { λ a. record { name = a.name.now; body = body_seen a.body } };
}

impl<'a> Attr<'a> {
    /// The name, without its final zero.
    pub fn name(&self) -> &'a str
        ensures { result.now ≡ self.now.name }
    {
        self.name
    }

    /// What it holds.
    pub fn body(&self) -> AttrBody<'a>
        ensures { body_seen result ≡ self.now.body }
    {
        self.body
    }
}
