// How an image is laid out: which node stands where, and each object in its block.

pub(crate) mod container;
pub(crate) mod files;
pub(crate) mod image;
pub(crate) mod physical;
pub(crate) mod queues;
pub(crate) mod snapshots;
pub(crate) mod space;
pub(crate) mod trees;
pub(crate) mod volumes;
