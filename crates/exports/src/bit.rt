// Where the parts of an answer in 64 bits stand.
pub(crate) const BIT_16: u64 = 1 << 16;

pub(crate) const BIT_32: u64 = 1 << 32;

pub(crate) const BIT_62: u64 = 1 << 62;

// An answer has it where the operation is refused.
pub(crate) const BIT_63: u64 = 1 << 63;
