// Volumes of made containers, object maps, and rings of checkpoints.

mod maps;
mod ranges;
mod ring;
mod streams;
mod volumes;
