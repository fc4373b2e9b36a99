// A record of an area is made to lead to another inode, as Linux does it in `gfs2_dir_mvino` of `fs/gfs2/dir.c`.
ghost use Rattle.std.specs.Prelude.{◌≡◌, ◌+◌, ◌^◌, ◌<◌, ◌≤◌, ◌∷◌, length, drop, true};
ghost use Rattle.std.specs.Int.{w64};
ghost use Rattle.gfs2_layout.specs.Area.{IsArea, IsRecordAt, slot_at, slots_of};
ghost use Rattle.gfs2_layout.specs.Bytes.{u16_at as number_16, with_number};
ghost use Rattle.gfs2_layout.specs.Cutting.{slot_from};
ghost use Rattle.gfs2_layout.specs.Structures.{is_in_use};
ghost use Rattle.name_redirects.specs.Leading.{led_to, slots_led_to, with_inum};

use gfs2_layout::Inum;

// A number over the eight bytes from a place on.
#[tactic(auto, unfolding(gfs2_layout::specs::Bytes::with_number))]
fn put_number(bytes: &mut [u8], at: usize, number: u64)
    requires { at + 8 ≤ length bytes.old }
    ensures bytes { bytes.new ≡ with_number w64 at number bytes.old }
    ensures width { number < 2 ^ 64 }
{
    bytes[at..at + 8].copy_from_slice(&number.to_be_bytes());
}

// The record in use that begins here leads there.
fn lead_here(bytes: &mut [u8], inum: &Inum)
    requires area { IsArea bytes.old }
    requires some { 1 ≤ length bytes.old }
    requires used { is_in_use (slot_at bytes.old).head ≡ true }
    ensures bytes { bytes.new ≡ with_inum 0 inum.now bytes.old }
    ensures slots { slots_of bytes.new ≡ led_to inum.now (slot_at bytes.old) ∷ slots_of (drop (number_16 20 bytes.old) bytes.old) }
    ensures area { IsArea bytes.new }
{
    put_number(bytes, 0, inum.number);
    put_number(bytes, 8, inum.address);
}

/// The record in use that begins at this place, in bytes, leads to another inode of the same kind: both numbers of its inum are written.
/// All other bytes stay. It costs sixteen bytes.
pub(crate) fn redirect_record(area: &mut [u8], at: u32, inum: &Inum)
    requires area { IsArea area.old }
    requires record { IsRecordAt area.old at }
    requires used { is_in_use (slot_from at area.old).head ≡ true }
    ensures bytes { area.new ≡ with_inum at inum.now area.old }
    ensures slots { slots_of area.new ≡ slots_led_to at inum.now area.old }
    ensures area { IsArea area.new }
    ensures size { length area.new ≡ length area.old }
{
    lead_here(&mut area[at as usize..], inum);
}
