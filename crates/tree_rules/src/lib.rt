//! Whether a view meets its rules, and what is odd in it.
#![tactic(auto)]

mod checking;
mod faults;
mod gathered;
mod listing;
mod next;
mod remarks;
mod tallies;
mod with_extents;

pub use checking::check_view;
pub use listing::view_extents;
pub use next::{CheckedNext, check_next};
pub use tallies::{CheckedView, ViewTally};
pub use view_change::KeptView;
pub use view_rules::Profile;
pub use with_extents::check_with_extents;
