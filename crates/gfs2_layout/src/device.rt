ghost use Rattle.std.specs.Prelude.{◌≡◌, ◌≤◌};
ghost use Rattle.gfs2_layout.specs.Device.{superblock_place};

// The superblock's first byte on a device.
const SUPERBLOCK: u64 = 65_536;

/// The block of the superblock, which stands at byte 65,536 of a device whose blocks have so many bytes.
pub fn superblock_block(size: u32) -> u64
    requires { 1 ≤ size }
    ensures { result ≡ superblock_place size }
{
    SUPERBLOCK / u64::from(size)
}
