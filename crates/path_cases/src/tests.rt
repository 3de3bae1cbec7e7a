// Paths in made containers, what they lead to, what their views hold, and what folders get of them.

mod exports;
mod made;
mod opened;
mod reads;
mod usage;
mod walks;
