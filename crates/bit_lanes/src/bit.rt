// One bit of a run of bytes.
ghost use Rattle.std.specs.Prelude.{◌≡◌, ◌*◌, ◌<◌, length};
ghost use Rattle.apfs_model.specs.Bytes.{bit_at};

/// Whether a bit is set.
#[tactic(auto, unfolding(apfs_model::specs::Bytes::bit_at))]
pub fn is_set(bits: &[u8], place: usize) -> bool
    requires { place < 8 * length bits.now }
    ensures { result ≡ bit_at bits.now place }
{
    (bits[place / 8] >> (place % 8)) % 2 == 1
}
