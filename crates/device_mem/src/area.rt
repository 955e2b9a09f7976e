//! An area in memory.

ghost use Rattle.std.specs.Prelude.{◌≡◌, ◌+◌, ◌≤◌, length, replicate, IfOk, All};
ghost use Rattle.device_model.specs.Disk.{overwritten, IsByte};

use crate::bytes::zeros;
use device_model::AREA;
use std::alloc::Global;
use std::marker::Model;
use upd_text::NoMemory;

/// The bytes of an area, of which there are 266,240.
#[derive(Drop)]
pub struct AreaBytes {
    bytes: Vec<u8>,
}

impl Model for AreaBytes {
    ghost use Rattle.std.specs.Prelude.{List, ℕ, ◌≡◌, length, All};
    ghost use Rattle.device_model.specs.Disk.{IsByte};

    ghost Value = { List ℕ };

    ghost view = { λ a. a.bytes.items };

    ghost invariant = { λ a. (length a.bytes.items ≡ 266240) × All IsByte a.bytes.items };
}

impl AreaBytes {
    /// An area of zeros.
    pub fn zeros(alloc: Global) -> Result<AreaBytes, NoMemory>
        ensures { IfOk result (λ a. a ≡ replicate AREA 0) }
    {
        let bytes = zeros(alloc, AREA as usize)?;
        Ok(AreaBytes { bytes })
    }

    /// Writes bytes from an offset on.
    pub fn set(&mut self, at: u32, bytes: &[u8])
        requires { at + length bytes.now ≤ AREA }
        ensures set { self.new ≡ overwritten at bytes.now self.old }
        ensures size { length self.new ≡ AREA }
        ensures small { All IsByte self.new }
    {
        let at = at as usize;
        self.bytes[at..at + bytes.len()].copy_from_slice(bytes);
    }

    pub fn as_slice(&self) -> &[u8]
        ensures bytes { result.now ≡ self.now }
        ensures size { length self.now ≡ AREA }
        ensures small { All IsByte self.now }
    {
        self.bytes.as_slice()
    }

    pub(crate) fn into_bytes(self) -> Vec<u8>
        ensures bytes { result.items ≡ self }
        ensures size { length result.items ≡ AREA }
        ensures small { All IsByte result.items }
    {
        self.bytes
    }
}
