// The block sizes of the containers that are read.
ghost use Rattle.std.specs.Prelude.{◌≡◌};
ghost use Rattle.obj_base.specs.BlockSize as sizes;

/// Whether containers of this block size are read; `size` is in bytes.
pub const fn is_accepted(size: u32) -> bool
    ensures { result ≡ sizes.is_accepted size }
{
    matches!(size, 4096 | 8192 | 16384 | 32768 | 65536)
}
