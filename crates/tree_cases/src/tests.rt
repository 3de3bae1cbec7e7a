// The cases, in tables.
mod cases;
mod changes;
mod facts;
mod opened;
mod trees;
mod views;
mod ways;
