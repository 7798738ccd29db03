/// Why a row was not pushed, or a chunk not made.
#[derive(Clone, Copy, Debug, PartialEq, Eq)]
pub enum BuildFault {
    /// The row takes more than 2,000 bytes.
    TooLong,
    /// A write or the seal failed.
    Write,
    Memory,
}
