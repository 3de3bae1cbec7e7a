// Sweeps of made containers.

mod accounts;
mod views;
