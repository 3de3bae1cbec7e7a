// The ways in which facts are looked up.
use crate::counted::Counted;
use crate::near::Near;

/// What is looked up in the facts of a view: by a look at all of them, or in their order.
#[derive(Drop)]
pub(crate) enum Looks<'a> {
    Counted(Counted<'a>),
    Near(Near<'a>),
}
