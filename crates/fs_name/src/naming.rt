// How a volume compares names.
ghost use Rattle.std.specs.Prelude.{◌≡◌};
ghost use Rattle.fs_name.specs.Normal as spec;

use apfs_layout::volume;

/// Which names of a volume are the same (File-System Objects, `j_drec_hashed_key_t`; Volumes, Incompatible Volume Feature Flags).
#[derive(Clone, Copy, PartialEq, Eq)]
pub enum Names {
    /// Names of the same bytes.
    Exact,
    /// Names whose composed characters are the same, as `é` in one character and in two.
    Normal,
    /// As `Normal`, and in capital and small letters alike.
    Folded,
}

impl Names {
    /// How a volume with these incompatible features compares names.
    pub fn of_features(incompat: u64) -> Names
        ensures { result ≡ spec.names_of incompat }
    {
        if incompat & volume::CASE_INSENSITIVE == volume::CASE_INSENSITIVE {
            Names::Folded
        } else if incompat & volume::NORMALIZATION_INSENSITIVE
            == volume::NORMALIZATION_INSENSITIVE
        {
            Names::Normal
        } else {
            Names::Exact
        }
    }

    /// Whether the keys of a volume's directory entries have hashes of their names.
    pub fn are_hashed(self) -> bool
        ensures { result ≡ spec.are_hashed self }
    {
        match self {
            Names::Exact => false,
            Names::Normal | Names::Folded => true,
        }
    }
}
