// A leaf's records in two halves.
ghost use Rattle.std.specs.Prelude.{◌≡◌, ◌^◌, ◌<◌, ◌≤◌, ◌+◌, length, filter};
ghost use Rattle.gfs2_layout.specs.Area.{IsArea, slots_of};
ghost use Rattle.leaf_areas.specs.Moving.{in_use};
ghost use Rattle.leaf_areas.specs.Splitting.{is_lower, is_upper, lower_half, upper_half};

use crate::moving::pack;
use crate::parts::{Part, is_of};
use gfs2_layout::{cut_record, next_record};

/// How many records each half of a leaf has.
#[derive(Clone, Copy, Debug, PartialEq, Eq)]
pub struct Halves {
    pub lower: u16,
    pub upper: u16,
}

// Cuts the records of the lower half from an area, one after another, and tells how many in use stay.
fn cut_lower(old: &mut [u8], depth: u16) -> u16
    requires area { IsArea old.old }
    requires short { length old.old < 2 ^ 16 }
    ensures slots { slots_of old.new ≡ upper_half depth (slots_of old.old) }
    ensures count { result ≡ length (filter (is_upper depth) (slots_of old.old)) }
    ensures filled { IsArea old.new }
    ensures size { length old.new ≡ length old.old }
{
    let mut at = 0u32;
    let mut upper = 0u16;
    while let Some((record, _)) = next_record(&old[at as usize..]) {
        let head = record.head;
        if is_of(&record, Part::Lower(depth)) {
            cut_record(old, at);
        } else if head.is_in_use() {
            upper += 1;
        }
        at += u32::from(head.rec_len);
    }
    upper
}

/// Splits the records of a leaf of this depth: those whose hash has a zero behind so many bits go into the new area, in order, and are cut
/// from the old one, one after another. It tells how many each half has. It goes over the records twice, and for each that goes once more over
/// those before it.
pub fn split_area(old: &mut [u8], new: &mut [u8], depth: u16) -> Halves
    requires area { IsArea old.old }
    requires some { 40 ≤ length old.old }
    requires same { length new.old ≡ length old.old }
    requires short { length old.old < 2 ^ 16 }
    requires low { depth ≤ 31 }
    ensures lower { slots_of new.new ≡ lower_half (length old.old) depth (slots_of old.old) }
    ensures upper { slots_of old.new ≡ upper_half depth (slots_of old.old) }
    ensures many { result.lower ≡ length (filter (is_lower depth) (slots_of old.old)) }
    ensures all { result.lower + result.upper ≡ length (in_use (slots_of old.old)) }
    ensures new_filled { IsArea new.new }
    ensures old_filled { IsArea old.new }
    ensures new_size { length new.new ≡ length old.old }
    ensures old_size { length old.new ≡ length old.old }
{
    let lower = pack(old, new, Part::Lower(depth));
    let upper = cut_lower(old, depth);
    Halves { lower, upper }
}
