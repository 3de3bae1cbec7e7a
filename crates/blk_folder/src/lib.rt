//! Folders: directories and files that are put one after the other, where they go, and how that fails.
#![tactic(auto)]

mod edge;
mod folder;
mod memory;

pub use edge::DirFolder;
pub use folder::{Folder, Given};
pub use memory::MemFolder;
