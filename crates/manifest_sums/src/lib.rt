//! Sums of files, and the manifest that lists them.
#![tactic(auto)]

mod laws;
mod manifest;
mod sum;
#[cfg(test)]
mod tests;

pub use laws::{manifests_are_texts, sums_are_digits};
pub use manifest::{Line, Manifest, ManifestFault, read_manifest};
pub use sum::{Sum, Summing};
