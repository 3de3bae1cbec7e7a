// Made images, and images that are edited or newly made.

mod edits;
mod formats;
mod images;
mod plans;
