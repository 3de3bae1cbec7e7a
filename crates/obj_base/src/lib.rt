//! Objects: numbers in bytes, the sum, the header and its tests, and why a call stops.
#![tactic(auto)]

mod block_size;
mod header;
mod number;
mod site;
mod soundness;
mod stop;
mod sum;

pub use block_size::is_accepted;
pub use header::{Expect, HeadFault, Header, ObjFlags};
pub use number::{u16_at, u32_at, u64_at};
pub use site::Site;
pub use soundness::sound;
pub use stop::{Bad, Feature, Stop, Unsound, Within};
pub use sum::sum64;
