//! Makes small containers for tests: a plan says what a container holds, and `make` lays it out.
#![tactic(auto)]

pub mod cases;
mod checkpoints;
mod geometry;
mod images;
mod laying;
mod making;
mod objects;

pub use checkpoints::{ring_of_four, skipped_checkpoint};
pub use geometry::Groups;
pub use images::{Base, Change, Ranges, Record, SMALL, grouped, image, image_with, made};
pub use img_edit::{
    edit, free, mark, places, put_bytes, put_u16, put_u32, put_u64, reseal, reseal_block, write,
};
pub use img_plan::{
    FileTree, Item, Leaf, NewRange, Plan, QueueEntry, Sample, Version, VolPlan, gen_plan, pack,
    records, sample,
};
pub use making::{make, make_grouped, make_with};

/// A table of tuples: a row is the parts of one, and ends with a semicolon.
#[macro_export]
macro_rules! table {
    ($($($part:expr),+;)*) => {
        &[$(($($part),+)),*]
    };
}
