/// Why a device took or gave nothing.
#[derive(Clone, Copy, Debug, PartialEq, Eq)]
pub enum WireEnd {
    /// The device failed, and its count of faults rose.
    Failed,
    NoMemory,
}
