pub(crate) mod crc32;
pub(crate) mod crc32c;
