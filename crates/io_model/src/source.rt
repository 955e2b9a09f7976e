//! A source of files.

use upd_text::Name;

/// A call of a source failed.
#[derive(Clone, Copy, Debug, PartialEq, Eq)]
pub struct SourceFault;

/// A list of files, each a path and its bytes, which are read by index and piece. No call changes
/// the files. A call answers `SourceFault` only where it raised the count of faults by one, or the
/// count stands at the end of its type.
pub trait Source {
    ghost use Rattle.std.specs.Prelude.{ℕ, List, Option, ◌≡◌, ◌<◌, ◌≤◌, ◌^◌, length, take, IfOk};
    ghost use Rattle.io_model.specs.Source.{Content, count_of, Counts, IsPath, IsLength, InFile, IsPart, after_read, HasNumber};

    /// What the source was set up to do, as plain data.
    type Plan;

    /// The files, where it tells them, or else their number. No call changes it.
    ghost content: { Self → Content };

    /// For each file how many bytes `read` has given, where the source tells it. A number stays at
    /// the end of its type. No other call changes it.
    ghost given: { Self → Option (List ℕ) };

    /// How often a call failed.
    ghost faults: { Self → ℕ };

    /// The plan, where it has one. No call changes it.
    ghost plan: { Self → Option Self.Plan };

    /// How many files there are.
    fn files(&self) -> u32
        ensures number { result ≡ count_of (content self.now) }
        ensures counted { faults self.now < 2 ^ 64 };

    /// The path of a file, or `None` where it is no name. Condition: the index is below `files`.
    fn path(&mut self, i: u32) -> Result<Option<Name>, SourceFault>
        requires { i < count_of (content self.old) }
        ensures same { content self.new ≡ content self.old }
        ensures plan { plan self.new ≡ plan self.old }
        ensures given { given self.new ≡ given self.old }
        ensures counts { Counts (faults self.old) result (faults self.new) }
        ensures value { IfOk result (λ p. IsPath (content self.old) i p) };

    /// How many bytes a file has, fewer than 2^60. Condition: the index is below `files`.
    fn length(&mut self, i: u32) -> Result<u64, SourceFault>
        requires { i < count_of (content self.old) }
        ensures same { content self.new ≡ content self.old }
        ensures plan { plan self.new ≡ plan self.old }
        ensures given { given self.new ≡ given self.old }
        ensures numbered { HasNumber i (given self.new) }
        ensures counts { Counts (faults self.old) result (faults self.new) }
        ensures short { IfOk result (λ n. n < 2 ^ 60) }
        ensures value { IfOk result (λ n. IsLength (content self.old) i n) };

    /// The bytes of a file from a place on, into the front of `into`: as many as it answers, at
    /// least one. Conditions: the index is below `files`, `into` isn't empty, and where the files
    /// are told, as many bytes as it has room for lie in the file. Where they aren't told, a file
    /// that ends earlier is a fault.
    fn read(&mut self, i: u32, at: u64, into: &mut [u8]) -> Result<usize, SourceFault>
        requires file { i < count_of (content self.old) }
        requires room { 0 < length into.old }
        requires part { InFile (content self.old) i at (length into.old) }
        ensures same { content self.new ≡ content self.old }
        ensures plan { plan self.new ≡ plan self.old }
        ensures given { given self.new ≡ after_read i result (given self.old) }
        ensures counts { Counts (faults self.old) result (faults self.new) }
        ensures some { IfOk result (λ n. 0 < n) }
        ensures most { IfOk result (λ n. n ≤ length into.old) }
        ensures value { IfOk result (λ n. IsPart (content self.old) i at (take n into.new)) };
}
