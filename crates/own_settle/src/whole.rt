// What is reached of a container.
ghost use Rattle.std.specs.Prelude.{◌≡◌};
ghost use Rattle.own_settle.specs.Kept.{HasPool};

use space_map::Space;
use std::marker::Model;

/// What is reached of a container: its named objects, counted; the ranges of the owners of the container and of the pool, each a
/// first block and a length; the space; and the bits of the pool.
#[derive(Drop)]
pub struct Reached {
    objects: u64,
    owners: Vec<(u64, u64)>,
    pool_owners: Vec<(u64, u64)>,
    space: Space,
    pool: Vec<u8>,
}

impl Model for Reached {
    ghost use Rattle.reach_rules.specs.Reached.{Whole};
    ghost use Rattle.own_settle.specs.Kept.{HasPool};

    ghost Value = { Whole };

    ghost view = { λ a. record { objects = a.objects; owners = a.owners.items; pool_owners = a.pool_owners.items; space = a.space; pool = a.pool.items } };

    ghost invariant = { λ a. HasPool a.space.site.blocks a.space.manager a.pool.items };
}

impl Reached {
    /// All that was reached. The pool lies in the container and has a bit for each of its blocks.
    pub fn new(
        objects: u64,
        owners: Vec<(u64, u64)>,
        pool_owners: Vec<(u64, u64)>,
        space: Space,
        pool: Vec<u8>,
    ) -> Reached
        requires { HasPool space.site.blocks space.manager pool.items }
        ensures objects { result.objects ≡ objects }
        ensures owners { result.owners ≡ owners.items }
        ensures pool_owners { result.pool_owners ≡ pool_owners.items }
        ensures space { result.space ≡ space }
        ensures pool { result.pool ≡ pool.items }
    {
        Reached {
            objects,
            owners,
            pool_owners,
            space,
            pool,
        }
    }

    /// How many objects are named.
    pub fn objects(&self) -> u64
        ensures { result ≡ self.now.objects }
    {
        self.objects
    }

    /// The ranges of the container's owners.
    pub fn owners(&self) -> &[(u64, u64)]
        ensures { result.now ≡ self.now.owners }
    {
        &self.owners
    }

    /// The ranges of the pool's owners.
    pub fn pool_owners(&self) -> &[(u64, u64)]
        ensures { result.now ≡ self.now.pool_owners }
    {
        &self.pool_owners
    }

    /// The space.
    pub fn space(&self) -> &Space
        ensures { result.now ≡ self.now.space }
    {
        &self.space
    }

    /// The bits of the pool, from its first block on.
    pub fn pool(&self) -> &[u8]
        ensures all { result.now ≡ self.now.pool }
        ensures has_pool { HasPool self.now.space.site.blocks self.now.space.manager result.now }
    {
        &self.pool
    }
}
