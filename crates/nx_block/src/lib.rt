//! The container superblock, the EFI jumpstart and the reaper: which blocks are one, and their fields.
#![tactic(auto)]

mod fault;
mod jumpstart;
mod read;
mod reaping;
mod view;

pub use fault::NxFault;
pub use jumpstart::{Jump, jump_read};
pub use read::{nx_read, nx_size};
pub use reaping::{ReapList, Reaper, reap_list_read, reaper_read};
pub use view::NxView;
