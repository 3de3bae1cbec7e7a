// Space in made containers.

mod ledger;
mod pool;
mod settled;
mod space;
