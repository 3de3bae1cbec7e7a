// What is wrong in a record.

use thiserror::Error;

/// The first part of a record that is wrong. The texts are for developers; no printed line rests on them.
#[derive(Clone, Copy, PartialEq, Eq, Debug, Error)]
pub enum RecFault {
    /// The value is too short for its fixed part, its contents or its name.
    #[error("the value is too short")]
    Length,
    /// The name isn't UTF-8 that ends with its one zero and has another byte before it.
    #[error("the name isn't UTF-8 that ends with its one zero and has another byte before it")]
    Name,
    /// The extended fields leave the value, or one that is read is too short.
    #[error("the extended fields leave the value, or one that is read is too short")]
    Fields,
    /// Of an attribute's two flags, for a stream and for embedded contents, not exactly one is set.
    #[error("of the flags for a stream and for embedded contents not exactly one is set")]
    Flags,
}
