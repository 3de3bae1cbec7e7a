// The fields of a volume's superblock that only `load` reads (Volumes, apfs_superblock_t).
ghost use Rattle.std.specs.Prelude.{◌≡◌, ◌≤◌, length};
ghost use Rattle.vol_view.specs.Fields as fields;

use apfs_layout::volume;
use obj_base::{u32_at, u64_at};

#[tactic(auto, unfolding(crate::specs::Fields::root_type_of))]
pub(crate) fn root_type(bytes: &[u8]) -> u32
    requires { 1024 ≤ length bytes.now }
    ensures { result ≡ fields.root_type_of bytes.now }
{
    u32_at(bytes, volume::ROOT_TYPE)
}

#[tactic(auto, unfolding(crate::specs::Fields::extents_type_of))]
pub(crate) fn extents_type(bytes: &[u8]) -> u32
    requires { 1024 ≤ length bytes.now }
    ensures { result ≡ fields.extents_type_of bytes.now }
{
    u32_at(bytes, volume::EXTENTS_TYPE)
}

#[tactic(auto, unfolding(crate::specs::Fields::snaps_type_of))]
pub(crate) fn snaps_type(bytes: &[u8]) -> u32
    requires { 1024 ≤ length bytes.now }
    ensures { result ≡ fields.snaps_type_of bytes.now }
{
    u32_at(bytes, volume::SNAPS_TYPE)
}

#[tactic(auto, unfolding(crate::specs::Fields::omap_oid_of))]
pub(crate) fn omap_oid(bytes: &[u8]) -> u64
    requires { 1024 ≤ length bytes.now }
    ensures { result ≡ fields.omap_oid_of bytes.now }
{
    u64_at(bytes, volume::OMAP_OID)
}

#[tactic(auto, unfolding(crate::specs::Fields::root_oid_of))]
pub(crate) fn root_oid(bytes: &[u8]) -> u64
    requires { 1024 ≤ length bytes.now }
    ensures { result ≡ fields.root_oid_of bytes.now }
{
    u64_at(bytes, volume::ROOT_OID)
}

#[tactic(auto, unfolding(crate::specs::Fields::extents_root_of))]
pub(crate) fn extents_root(bytes: &[u8]) -> u64
    requires { 1024 ≤ length bytes.now }
    ensures { result ≡ fields.extents_root_of bytes.now }
{
    u64_at(bytes, volume::EXTENTS_ROOT)
}

#[tactic(auto, unfolding(crate::specs::Fields::snaps_root_of))]
pub(crate) fn snaps_root(bytes: &[u8]) -> u64
    requires { 1024 ≤ length bytes.now }
    ensures { result ≡ fields.snaps_root_of bytes.now }
{
    u64_at(bytes, volume::SNAPS_ROOT)
}

#[tactic(auto, unfolding(crate::specs::Fields::revert_to_of))]
pub(crate) fn revert_to(bytes: &[u8]) -> u64
    requires { 1024 ≤ length bytes.now }
    ensures { result ≡ fields.revert_to_of bytes.now }
{
    u64_at(bytes, volume::REVERT_TO)
}

#[tactic(auto, unfolding(crate::specs::Fields::flags_of))]
pub(crate) fn flags(bytes: &[u8]) -> u64
    requires { 1024 ≤ length bytes.now }
    ensures { result ≡ fields.flags_of bytes.now }
{
    u64_at(bytes, volume::FS_FLAGS)
}

#[tactic(auto, unfolding(crate::specs::Fields::rolling_of))]
pub(crate) fn rolling(bytes: &[u8]) -> u64
    requires { 1024 ≤ length bytes.now }
    ensures { result ≡ fields.rolling_of bytes.now }
{
    u64_at(bytes, volume::ROLLING)
}

#[tactic(auto, unfolding(crate::specs::Fields::meta_ext_of))]
pub(crate) fn meta_ext(bytes: &[u8]) -> u64
    requires { 1024 ≤ length bytes.now }
    ensures { result ≡ fields.meta_ext_of bytes.now }
{
    u64_at(bytes, volume::META_EXT)
}

#[tactic(auto, unfolding(crate::specs::Fields::integrity_of))]
pub(crate) fn integrity(bytes: &[u8]) -> u64
    requires { 4096 ≤ length bytes.now }
    ensures { result ≡ fields.integrity_of bytes.now }
{
    u64_at(bytes, volume::INTEGRITY)
}

#[tactic(auto, unfolding(crate::specs::Fields::file_extents_of))]
pub(crate) fn file_extents(bytes: &[u8]) -> u64
    requires { 4096 ≤ length bytes.now }
    ensures { result ≡ fields.file_extents_of bytes.now }
{
    u64_at(bytes, volume::FILE_EXTENTS)
}

#[tactic(auto, unfolding(crate::specs::Fields::reserved_of))]
pub(crate) fn reserved(bytes: &[u8]) -> u64
    requires { 4096 ≤ length bytes.now }
    ensures { result ≡ fields.reserved_of bytes.now }
{
    u64_at(bytes, volume::RESERVED)
}
