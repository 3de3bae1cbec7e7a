// The header of an object (Objects, obj_phys_t), and what is expected of one.
ghost use Rattle.std.specs.Prelude.{⊤, [], ◌∷◌, codes};

use bitflags::{Flag, Flags};
use thiserror::Error;

/// The flags of an object: its type with the low 16 bits, which are the kind, cleared (Objects, Object Type Flags).
#[derive(Clone, Copy, PartialEq, Eq)]
pub struct ObjFlags {
    pub bits: u32,
}

impl ObjFlags {
    /// The object is found by its oid in the checkpoint's mappings.
    pub const EPHEMERAL: ObjFlags = ObjFlags { bits: 0x8000_0000 };

    /// The object's oid is its block. An object that is neither ephemeral nor physical is virtual.
    pub const PHYSICAL: ObjFlags = ObjFlags { bits: 0x4000_0000 };

    /// The object is stored without a header.
    pub const NO_HEADER: ObjFlags = ObjFlags { bits: 0x2000_0000 };

    /// The object is encrypted.
    pub const ENCRYPTED: ObjFlags = ObjFlags { bits: 0x1000_0000 };

    /// The ephemeral object isn't kept over an unmount.
    pub const NON_PERSISTENT: ObjFlags = ObjFlags { bits: 0x0800_0000 };

    pub const FLAGS: &'static [Flag<ObjFlags>] = &[
        Flag {
            name: "EPHEMERAL",
            value: ObjFlags::EPHEMERAL,
        },
        Flag {
            name: "PHYSICAL",
            value: ObjFlags::PHYSICAL,
        },
        Flag {
            name: "NO_HEADER",
            value: ObjFlags::NO_HEADER,
        },
        Flag {
            name: "ENCRYPTED",
            value: ObjFlags::ENCRYPTED,
        },
        Flag {
            name: "NON_PERSISTENT",
            value: ObjFlags::NON_PERSISTENT,
        },
    ];
}

impl Flags for ObjFlags {
    type Bits = u32;

    ghost exact = { ⊤ };

    ghost table = { (codes "EPHEMERAL", 0x80000000) ∷ (codes "PHYSICAL", 0x40000000) ∷ (codes "NO_HEADER", 0x20000000) ∷ (codes "ENCRYPTED", 0x10000000) ∷ (codes "NON_PERSISTENT", 0x8000000) ∷ [] };

    ghost set_of = { λ p. p.bits };

    fn flags<'a>() -> &'a [Flag<ObjFlags>] {
        ObjFlags::FLAGS
    }

    fn bits(&self) -> u32 {
        self.bits
    }

    fn from_bits_retain(bits: u32) -> ObjFlags {
        ObjFlags { bits }
    }
}

/// The fields of an object's header.
#[derive(Clone, Copy, PartialEq, Eq)]
pub struct Header {
    pub sum: u64,
    pub oid: u64,
    pub xid: u64,
    pub kind: u16,
    pub flags: ObjFlags,
    pub subtype: u32,
}

/// The test of a header that fails. The texts are for developers; no printed line rests on them.
#[derive(Clone, Copy, PartialEq, Eq, Debug, Error)]
pub enum HeadFault {
    #[error("the stored sum isn't that of the bytes")]
    BadSum,
    #[error("the kind isn't the one expected")]
    BadKind,
    #[error("the subtype isn't the one expected")]
    BadSubtype,
    #[error("the oid isn't the one expected")]
    BadOid,
    #[error("the transaction is above the greatest one allowed")]
    BadXid,
}

/// What is expected of an object's header. What is None isn't tested.
#[derive(Clone, Copy, PartialEq, Eq)]
pub struct Expect {
    pub kind: u16,
    pub subtype: Option<u32>,
    pub oid: Option<u64>,
    /// The greatest transaction that is allowed.
    pub max_xid: u64,
}
