// The way from a root down to a place.
ghost use Rattle.std.specs.Prelude.{◌+◌, ◌≤◌, vec_len, vec_capacity};

use bt_node::NodeAt;

/// A node on the way: its block, what was expected of it, and the index of its first entry that isn't passed.
#[derive(Drop)]
pub(crate) struct Step {
    pub block: Vec<u8>,
    pub at: NodeAt,
    pub next: usize,
}

/// The nodes from the root down to a place, the last apart, and buffers for the levels below.
#[derive(Drop)]
pub(crate) struct Way {
    pub above: Vec<Step>,
    pub last: Step,
    pub spare: Vec<Step>,
    ghost room: { vec_len above + vec_len spare ≤ vec_capacity above },
    ghost spare_room: { vec_len above + vec_len spare ≤ vec_capacity spare },
}
