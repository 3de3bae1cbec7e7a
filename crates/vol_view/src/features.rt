// The features of a volume and of its snapshots (Volumes, Incompatible Volume Feature Flags and Volume Flags).
ghost use Rattle.std.specs.Prelude.{◌≡◌, ◌≤◌, ◌||◌, length};
ghost use Rattle.vol_view.specs.Features as spec;
ghost use Rattle.vol_view.specs.Gathered.{first_of};

use crate::fields::{
    extents_type, file_extents, flags, integrity, reserved, revert_to, rolling, root_type,
    snaps_type,
};
use crate::head::incompat;
use apfs_layout::volume;
use obj_base::Feature;

// The types of trees (Objects, Object Type Flags).

const EPHEMERAL: u32 = 0x8000_0000;

const PHYSICAL: u32 = 0x4000_0000;

// All features but the six that the reference names.
const OTHERS: u64 = 0xffff_ffff_ffff_ffc0;

// What the flags of a snapshot's record say (Snapshot Metadata, snap_meta_flags).

const PENDING_DATALESS: u32 = 1;

const MERGING: u32 = 2;

#[tactic(auto, unfolding(crate::specs::Features::has_keys))]
fn has_keys(bytes: &[u8]) -> bool
    requires { 1024 ≤ length bytes.now }
    ensures { result ≡ spec.has_keys bytes.now }
{
    flags(bytes) & volume::UNENCRYPTED != volume::UNENCRYPTED
        || incompat(bytes) & volume::ENCRYPTION_ROLLED == volume::ENCRYPTION_ROLLED
}

#[tactic(auto, unfolding(crate::specs::Features::is_rolling))]
fn is_encrypted(bytes: &[u8]) -> bool
    requires { 1024 ≤ length bytes.now }
    ensures { result ≡ (spec.has_keys bytes.now || spec.is_rolling bytes.now) }
{
    has_keys(bytes) || rolling(bytes) != 0
}

#[tactic(auto, unfolding(crate::specs::Features::is_sealed))]
fn is_sealed(bytes: &[u8]) -> bool
    requires { 1024 ≤ length bytes.now }
    ensures { result ≡ spec.is_sealed bytes.now }
{
    incompat(bytes) & volume::SEALED == volume::SEALED
}

#[tactic(auto, unfolding(crate::specs::Features::has_seal))]
fn has_seal(bytes: &[u8]) -> bool
    requires { 4096 ≤ length bytes.now }
    ensures { result ≡ spec.has_seal bytes.now }
{
    integrity(bytes) != 0 || file_extents(bytes) != 0
}

fn is_or_has_sealed(bytes: &[u8]) -> bool
    requires { 4096 ≤ length bytes.now }
    ensures { result ≡ (spec.is_sealed bytes.now || spec.has_seal bytes.now) }
{
    is_sealed(bytes) || has_seal(bytes)
}

#[tactic(auto, unfolding(crate::specs::Features::has_dataless))]
fn has_dataless(bytes: &[u8]) -> bool
    requires { 1024 ≤ length bytes.now }
    ensures { result ≡ spec.has_dataless bytes.now }
{
    incompat(bytes) & volume::DATALESS_SNAPSHOTS == volume::DATALESS_SNAPSHOTS
}

#[tactic(auto, unfolding(crate::specs::Features::is_restoring))]
fn is_restoring(bytes: &[u8]) -> bool
    requires { 1024 ≤ length bytes.now }
    ensures { result ≡ spec.is_restoring bytes.now }
{
    incompat(bytes) & volume::INCOMPLETE_RESTORE == volume::INCOMPLETE_RESTORE
}

#[tactic(auto, unfolding(crate::specs::Features::has_other_root))]
fn has_other_root(bytes: &[u8]) -> bool
    requires { 1024 ≤ length bytes.now }
    ensures { result ≡ spec.has_other_root bytes.now }
{
    let kind = root_type(bytes);
    kind & EPHEMERAL == EPHEMERAL || kind & PHYSICAL == PHYSICAL
}

#[tactic(auto, unfolding(crate::specs::Features::has_other_trees))]
fn has_other_trees(bytes: &[u8]) -> bool
    requires { 1024 ≤ length bytes.now }
    ensures { result ≡ spec.has_other_trees bytes.now }
{
    extents_type(bytes) & PHYSICAL != PHYSICAL || snaps_type(bytes) & PHYSICAL != PHYSICAL
}

fn is_stored_otherwise(bytes: &[u8]) -> bool
    requires { 1024 ≤ length bytes.now }
    ensures { result ≡ (spec.has_other_root bytes.now || spec.has_other_trees bytes.now) }
{
    has_other_root(bytes) || has_other_trees(bytes)
}

#[tactic(auto, unfolding(crate::specs::Features::is_to_revert))]
fn is_to_revert(bytes: &[u8]) -> bool
    requires { 1024 ≤ length bytes.now }
    ensures { result ≡ spec.is_to_revert bytes.now }
{
    revert_to(bytes) != 0
}

#[tactic(auto, unfolding(crate::specs::Features::has_later_tree))]
fn has_later_tree(bytes: &[u8]) -> bool
    requires { 4096 ≤ length bytes.now }
    ensures { result ≡ spec.has_later_tree bytes.now }
{
    reserved(bytes) != 0
}

#[tactic(auto, unfolding(crate::specs::Features::has_unknown))]
fn has_unknown(bytes: &[u8]) -> bool
    requires { 1024 ≤ length bytes.now }
    ensures { result ≡ spec.has_unknown bytes.now }
{
    incompat(bytes) & OTHERS != 0
}

/// The first feature of a volume by its superblock.
pub(crate) fn of_volume(bytes: &[u8]) -> Option<Feature>
    requires { 4096 ≤ length bytes.now }
    ensures { result ≡ first_of (spec.volume_features bytes.now) }
{
    if is_to_revert(bytes) {
        return Some(Feature::Revert);
    }
    if is_encrypted(bytes) {
        return Some(Feature::Encrypted);
    }
    if is_or_has_sealed(bytes) {
        return Some(Feature::Sealed);
    }
    if has_dataless(bytes) {
        return Some(Feature::Dataless);
    }
    if is_restoring(bytes) {
        return Some(Feature::Restore);
    }
    if is_stored_otherwise(bytes) {
        return Some(Feature::Storage);
    }
    if has_later_tree(bytes) {
        return Some(Feature::LaterTree);
    }
    if has_unknown(bytes) {
        return Some(Feature::UnknownVolume);
    }
    None
}

/// The first feature of a snapshot by its superblock.
pub(crate) fn of_snapshot(bytes: &[u8]) -> Option<Feature>
    requires { 1024 ≤ length bytes.now }
    ensures { result ≡ first_of (spec.snapshot_super_features bytes.now) }
{
    if has_keys(bytes) {
        return Some(Feature::Encrypted);
    }
    if is_sealed(bytes) {
        return Some(Feature::Sealed);
    }
    if has_dataless(bytes) {
        return Some(Feature::Dataless);
    }
    if is_restoring(bytes) {
        return Some(Feature::Restore);
    }
    if has_other_root(bytes) {
        return Some(Feature::Storage);
    }
    if has_unknown(bytes) {
        return Some(Feature::UnknownVolume);
    }
    None
}

/// The first feature of a snapshot by the flags of its record.
pub(crate) fn of_record(flags: u32) -> Option<Feature>
    ensures { result ≡ first_of (spec.snapshot_record_features flags) }
{
    if flags & PENDING_DATALESS == PENDING_DATALESS {
        return Some(Feature::Dataless);
    }
    if flags & MERGING == MERGING {
        return Some(Feature::SnapshotState);
    }
    None
}
