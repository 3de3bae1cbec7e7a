// What a volume's superblock tells (Volumes, apfs_superblock_t).
ghost use Rattle.std.specs.Prelude.{◌≡◌, ◌≤◌, ◌+◌, ◌==◌, length, position, IfSome};
ghost use Rattle.fs_name.specs.Normal.{names_of};
ghost use Rattle.vol_view.specs.Fields as fields;

use apfs_layout::volume;
use blk_source::Bytes;
use fs_name::Names;
use obj_base::{u16_at, u32_at, u64_at};

/// What a volume's superblock tells before its trees are read.
#[derive(Drop)]
pub struct VolHead {
    /// Its place among the volumes of the container, from 0 to 99.
    pub slot: u32,
    pub oid: u64,
    /// The block of its superblock.
    pub block: u64,
    pub uuid: [u8; 16],
    pub role: u16,
    /// Its incompatible features.
    pub incompat: u64,
    /// The number of snapshots that it counts.
    pub snapshots: u64,
    /// Its name, without the zeros after it.
    pub name: Bytes,
}

impl VolHead {
    /// How it compares names.
    pub fn names(&self) -> Names
        ensures { result ≡ names_of self.now.incompat }
    {
        Names::of_features(self.incompat)
    }
}

#[tactic(auto, unfolding(crate::specs::Fields::magic_of))]
pub(crate) fn magic(bytes: &[u8]) -> u32
    requires { 1024 ≤ length bytes.now }
    ensures { result ≡ fields.magic_of bytes.now }
{
    u32_at(bytes, volume::MAGIC)
}

#[tactic(auto, unfolding(crate::specs::Fields::incompat_of))]
pub(crate) fn incompat(bytes: &[u8]) -> u64
    requires { 1024 ≤ length bytes.now }
    ensures { result ≡ fields.incompat_of bytes.now }
{
    u64_at(bytes, volume::INCOMPAT)
}

#[tactic(auto, unfolding(crate::specs::Fields::snapshots_of))]
pub(crate) fn snapshots(bytes: &[u8]) -> u64
    requires { 1024 ≤ length bytes.now }
    ensures { result ≡ fields.snapshots_of bytes.now }
{
    u64_at(bytes, volume::SNAPSHOTS)
}

#[tactic(auto, unfolding(crate::specs::Fields::uuid_of))]
pub(crate) fn uuid(bytes: &[u8]) -> [u8; 16]
    requires { 1024 ≤ length bytes.now }
    ensures { result ≡ fields.uuid_of bytes.now }
{
    let mut uuid = [0u8; volume::UUID_LEN];
    uuid.copy_from_slice(&bytes[volume::UUID..volume::UUID + volume::UUID_LEN]);
    uuid
}

#[tactic(auto, unfolding(crate::specs::Fields::role_of))]
pub(crate) fn role(bytes: &[u8]) -> u16
    requires { 1024 ≤ length bytes.now }
    ensures { result ≡ fields.role_of bytes.now }
{
    u16_at(bytes, volume::ROLE)
}

// The place of the first zero.
fn first_zero(raw: &[u8]) -> Option<usize>
    ensures place { result ≡ position (λ b. b == 0) raw.now }
    ensures inside { IfSome result (λ end. end ≤ length raw.now) }
{
    raw.iter().position(|byte| *byte == 0)
}

/// The bytes of the name, up to the first zero.
#[tactic(auto, using(crate::proofs::Names::name_cut, crate::proofs::Names::name_full), unfolding(crate::specs::Fields::name_of))]
pub(crate) fn name(bytes: &[u8]) -> &[u8]
    requires { 1024 ≤ length bytes.now }
    ensures { result.now ≡ fields.name_of bytes.now }
{
    let raw = &bytes[volume::NAME..volume::NAME + volume::NAME_LEN];
    match first_zero(raw) {
        Some(end) => &raw[..end],
        None => raw,
    }
}
