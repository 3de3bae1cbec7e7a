// The law of what is gathered call by call, which rests on the definitions alone.
ghost use Rattle.std.specs.Prelude.{ℕ, List};
ghost use Rattle.nx_ring.specs.Checkpoint.{Seen};
ghost use Rattle.reach_sweep.specs.Composed.{PartsCompose};

/// How what is gathered of a container call by call is put together, so that all is reached. It does nothing.
pub fn parts_compose()
    ensures { (image : List ℕ) (seen : Seen) → PartsCompose image seen }
{}
