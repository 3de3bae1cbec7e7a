// What real directories get, what no clause says of the layer that bytes and files come from and go to, and lines of words.

mod bits;
mod blocks;
mod copies;
mod directories;
mod lines;
mod lists;
mod memory;
mod names;
mod partitions;
mod pieces;
mod sources;
