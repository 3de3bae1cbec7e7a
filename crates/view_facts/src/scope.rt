// Which facts of a view are kept.
ghost use Rattle.std.specs.Prelude.{Bool, true, false};

/// Which facts of a view are kept: all, or those of files alone.
pub(crate) trait Scope: Drop {
    /// Whether only inodes and entries are kept.
    const FILES: bool;

    ghost FILES: { Bool };
}

/// All facts.
#[derive(Drop)]
pub(crate) struct Whole;

impl Scope for Whole {
    const FILES: bool = false;

    ghost FILES = { false };
}

/// The facts of files: inodes and entries.
#[derive(Drop)]
pub(crate) struct OfFiles;

impl Scope for OfFiles {
    const FILES: bool = true;

    ghost FILES = { true };
}
