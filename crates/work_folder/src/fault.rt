use admit::Differs;

/// Why the work folder wasn't prepared.
#[derive(Drop)]
pub enum PrepareFault {
    /// The device is off.
    Off,
    /// A call of the work folder failed.
    DiskFault,
    /// A call of the source failed.
    SourceFault,
    /// A file that was copied hasn't the sum that is listed for it.
    Differs(Differs),
}
