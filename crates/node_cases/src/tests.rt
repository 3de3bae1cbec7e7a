// Objects, blocks that are kept, walks through made trees, records, and the leaves of trees.

mod cache;
mod changes;
mod keys;
mod leaves;
mod nodes;
mod objects;
mod records;
mod walks;
