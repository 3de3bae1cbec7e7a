// Where a path goes on to.
use crate::Answer;

/// Where a path goes on to, or what is told of it.
#[derive(Drop)]
pub enum Onward<T> {
    To(T),
    Answered(Answer),
    /// A record that is needed isn't there or can't be read, or there are too many.
    Lost,
}
