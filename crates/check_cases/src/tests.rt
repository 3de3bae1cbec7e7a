// The cases, in tables, and what a check answers.
mod again;
mod data;
mod names;
mod nodes;
mod owners;
mod reports;
mod rows;
mod space;
mod twice;
