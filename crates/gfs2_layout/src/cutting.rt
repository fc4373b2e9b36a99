//! Cutting a record from an area, as Linux does in `fs/gfs2/dir.c`.
ghost use Rattle.std.specs.Prelude.{◌≡◌, ◌+◌, ◌^◌, ◌≤◌, ◌<◌, ◌∷◌, length, drop};
ghost use Rattle.gfs2_layout.specs.Bytes.{u16_at as number_16};
ghost use Rattle.gfs2_layout.specs.Area.{IsArea, IsRecordAt, slot_at, slots_of};
ghost use Rattle.gfs2_layout.specs.Cutting.{emptied, joined, slot_from, slots_without, IsLastRecord};

use crate::Dirent;
use crate::area::past_record;
use crate::numbers::{put_u16, put_u64};

// The place of the last record of an area.
fn last_place(area: &[u8]) -> usize
    requires area { IsArea area.now }
    requires some { 1 ≤ length area.now }
    ensures { IsLastRecord area.now result }
{
    let mut at = 0;
    let mut rest = area;
    loop {
        let (length, behind) = past_record(rest);
        if behind.is_empty() {
            return at;
        }
        at += length as usize;
        rest = behind;
    }
}

// The record that begins here is no longer in use.
fn empty_here(bytes: &mut [u8])
    requires area { IsArea bytes.old }
    requires some { 1 ≤ length bytes.old }
    ensures slots { slots_of bytes.new ≡ emptied (slot_at bytes.old) ∷ slots_of (drop (number_16 20 bytes.old) bytes.old) }
    ensures area { IsArea bytes.new }
{
    put_u64(bytes, 0, 0);
    put_u64(bytes, 8, 0);
}

// The record that begins here takes up the next one.
fn join_next(bytes: &mut [u8])
    requires area { IsArea bytes.old }
    requires next { number_16 20 bytes.old + 1 ≤ length bytes.old }
    requires short { length bytes.old < 2 ^ 16 }
    ensures slots { slots_of bytes.new ≡ joined (slot_at bytes.old) (slot_from (number_16 20 bytes.old) bytes.old)
        ∷ slots_of (drop (number_16 20 bytes.old + number_16 20 (drop (number_16 20 bytes.old) bytes.old)) bytes.old) }
    ensures area { IsArea bytes.new }
{
    let length = Dirent::head(bytes).rec_len;
    let more = Dirent::head(&bytes[length as usize..]).rec_len;
    put_u16(bytes, 20, length + more);
}

/// Cuts the record that begins at this place, in bytes: the one before it grows by its length; where it is
/// the first, both numbers of its inum become zero. All other bytes stay, its own too. It goes over the
/// records up to that one.
pub fn cut_record(area: &mut [u8], at: u32)
    requires area { IsArea area.old }
    requires record { IsRecordAt area.old at }
    requires short { length area.old < 2 ^ 16 }
    ensures slots { slots_of area.new ≡ slots_without at area.old }
    ensures area { IsArea area.new }
    ensures size { length area.new ≡ length area.old }
{
    let at = at as usize;
    if at == 0 {
        empty_here(area);
    } else {
        let before = last_place(&area[..at]);
        join_next(&mut area[before..]);
    }
}
