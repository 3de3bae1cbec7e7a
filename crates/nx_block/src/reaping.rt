// The reaper and its lists.
//
// Gives: fields. Rests on: nothing below.
ghost use Rattle.std.specs.Prelude.{◌≡◌, ◌≤◌, length};
ghost use Rattle.nx_block.specs.Reaper.{reaper_head_of, reaper_flags_of, reap_next_of, reap_count_of};

use apfs_layout::reaping;
use obj_base::{u32_at, u64_at};
use std::marker::Model;

/// A reaper (Reaper, `nx_reaper_phys_t`). Contracts see its bytes.
#[derive(Drop)]
pub struct Reaper<'a> {
    bytes: &'a [u8],
}

impl<'a> Model for Reaper<'a> {
    ghost use Rattle.std.specs.Prelude.{List, ℕ, ◌≤◌, length};

    ghost Value = { List ℕ };

    ghost view = { λ a. a.bytes.now };

    ghost invariant = { λ a. 4096 ≤ length a.bytes.now };
}

/// A list of a reaper (Reaper, `nx_reap_list_phys_t`). Contracts see its bytes.
#[derive(Drop)]
pub struct ReapList<'a> {
    bytes: &'a [u8],
}

impl<'a> Model for ReapList<'a> {
    ghost use Rattle.std.specs.Prelude.{List, ℕ, ◌≤◌, length};

    ghost Value = { List ℕ };

    ghost view = { λ a. a.bytes.now };

    ghost invariant = { λ a. 4096 ≤ length a.bytes.now };
}

/// The view of a reaper in its block.
pub fn reaper_read(bytes: &[u8]) -> Reaper<'_>
    requires { 4096 ≤ length bytes.now }
    ensures { result ≡ bytes.now }
{
    Reaper { bytes }
}

/// The view of a reap list in its block.
pub fn reap_list_read(bytes: &[u8]) -> ReapList<'_>
    requires { 4096 ≤ length bytes.now }
    ensures { result ≡ bytes.now }
{
    ReapList { bytes }
}

#[tactic(auto, unfolding(crate::specs::Reaper::reaper_head_of, crate::specs::Reaper::reaper_flags_of))]
impl Reaper<'_> {
    /// The ephemeral oid of the first list, 0 where there is none.
    pub fn head(&self) -> u64
        ensures { result ≡ reaper_head_of self.now }
    {
        u64_at(self.bytes, reaping::REAPER_HEAD)
    }

    /// The flags: 2 where the reaper is at work on an object.
    pub fn flags(&self) -> u32
        ensures { result ≡ reaper_flags_of self.now }
    {
        u32_at(self.bytes, reaping::REAPER_FLAGS)
    }
}

#[tactic(auto, unfolding(crate::specs::Reaper::reap_next_of, crate::specs::Reaper::reap_count_of))]
impl ReapList<'_> {
    /// The ephemeral oid of the list after this one, 0 at the last.
    pub fn next(&self) -> u64
        ensures { result ≡ reap_next_of self.now }
    {
        u64_at(self.bytes, reaping::LIST_NEXT)
    }

    /// The entries that the list holds.
    pub fn count(&self) -> u32
        ensures { result ≡ reap_count_of self.now }
    {
        u32_at(self.bytes, reaping::LIST_COUNT)
    }
}
