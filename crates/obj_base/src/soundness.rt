// The tests of an object's header.
ghost use Rattle.std.specs.Prelude.{◌≡◌, ◌≤◌, ◌%◌, ◌↔◌, length, IsOk};
ghost use Rattle.obj_base.specs.Sound.{header_of, sound_of};
ghost use Rattle.obj_base.specs.SoundObject.{IsSound};

use crate::{Bad, Expect, Feature, HeadFault, Header, ObjFlags, sum64, u32_at, u64_at};
use apfs_layout::object;
use bitflags::Flags;

// The header of an object, sound or not.
#[tactic(auto, unfolding(apfs_model::specs::Object::sum_field, apfs_model::specs::Object::oid_of, apfs_model::specs::Object::xid_of, apfs_model::specs::Object::type_of, apfs_model::specs::Object::subtype_of))]
fn header_in(bytes: &[u8]) -> Header
    requires { 36 ≤ length bytes.now }
    ensures { result ≡ header_of bytes.now }
{
    let word = u32_at(bytes, object::TYPE);
    Header {
        sum: u64_at(bytes, object::SUM),
        oid: u64_at(bytes, object::OID),
        xid: u64_at(bytes, object::XID),
        kind: (word % 0x1_0000) as u16,
        flags: ObjFlags {
            bits: word & 0xffff_0000,
        },
        subtype: u32_at(bytes, object::SUBTYPE),
    }
}

/// The header of a sound object, or the first test that fails: the sum, the encrypted flag, the flag on a missing
/// header, the kind, the subtype, the oid, the transaction.
#[tactic(auto, using(crate::proofs::SoundLemmas::sound_means, crate::proofs::SoundLemmas::means_sound))]
pub fn sound(bytes: &[u8], expect: &Expect) -> Result<Header, Bad<HeadFault>>
    requires whole { length bytes.now % 4 ≡ 0 }
    requires long { 36 ≤ length bytes.now }
    ensures first { result ≡ sound_of bytes.now expect.now }
    ensures decides { IsOk result ↔ IsSound bytes.now expect.now }
{
    let header = header_in(bytes);
    if header.sum != sum64(bytes) {
        return Err(Bad::Found(HeadFault::BadSum));
    }
    if header.flags.contains(ObjFlags::ENCRYPTED) {
        return Err(Bad::Unsupported(Feature::Encrypted));
    }
    if header.flags.contains(ObjFlags::NO_HEADER) {
        return Err(Bad::Unsupported(Feature::NoHeader));
    }
    if header.kind != expect.kind {
        return Err(Bad::Found(HeadFault::BadKind));
    }
    if expect
        .subtype
        .is_some_and(|subtype| subtype != header.subtype)
    {
        return Err(Bad::Found(HeadFault::BadSubtype));
    }
    if expect.oid.is_some_and(|oid| oid != header.oid) {
        return Err(Bad::Found(HeadFault::BadOid));
    }
    if header.xid > expect.max_xid {
        return Err(Bad::Found(HeadFault::BadXid));
    }
    Ok(header)
}
