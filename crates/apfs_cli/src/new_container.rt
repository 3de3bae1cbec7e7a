// What `check` writes of what `format` wrote.
ghost use Rattle.apfs_cli.specs.Formatted.{FormattedIsClean};

/// A run of `check` on the image that a run of `format` wrote ends with 0 and writes the report of a new container, under both
/// profiles; or a read or a put failed, or memory ran out. It does nothing.
pub fn new_container_is_clean()
    ensures { FormattedIsClean }
{}
