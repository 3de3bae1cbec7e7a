//! The ring of checkpoints of a container: the candidates in its descriptor area, and the newest valid checkpoint.
#![tactic(auto)]

mod areas;
mod candidates;
mod choice;
mod fault;
mod features;
mod known;
mod line;
mod mappings;
mod objects;
mod order;
mod running_sum;
mod valid;
mod view;
mod zero;

pub use candidates::ring;
pub use choice::newest;
pub use fault::RingFault;
pub use line::RingLine;
pub use view::Checkpoint;
