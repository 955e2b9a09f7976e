//! The module over a disk in memory, and over a real file.

mod rows;
mod syncs;
