//! The module over a place in memory, and over real files.

mod noting;
mod rows;
mod syncs;
