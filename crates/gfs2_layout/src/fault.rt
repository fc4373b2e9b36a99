/// Why bytes are not a structure. Of several faults the first in this order is told: `Short`, `Magic`,
/// `Kind`, `Format`, `Hash`, `Value`.
#[derive(Clone, Copy, Debug, PartialEq, Eq)]
pub enum LayoutFault {
    /// The magic number is another.
    Magic,
    /// A block of metadata of this kind.
    Kind(u32),
    /// A block of metadata of this format.
    Format(u32),
    /// There are too few bytes.
    Short,
    /// The number at this place, in bytes from the structure's start, is none that may stand there.
    Value { place: u16, found: u64 },
    /// The kept checksum is not that of the bytes.
    Hash { kept: u32, computed: u32 },
}
