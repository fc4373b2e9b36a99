// Which records of an area are meant.
ghost use Rattle.std.specs.Prelude.{◌≡◌, [], MatchOption, filter};
ghost use Rattle.gfs2_layout.specs.Area.{Slot, IsArea, IsShown, slots_of};
ghost use Rattle.leaf_areas.specs.Splitting.{is_lower_name};
ghost use Rattle.leaf_areas.specs.Parts.{belongs, IsNextOf};

use crc_words::crc32;
use gfs2_layout::{Record, next_record};

// The records of an area that are meant.
#[derive(Clone, Copy, Debug)]
pub(crate) enum Part {
    // Those in use.
    InUse,
    // Those of the lower half of a leaf of this depth.
    Lower(u16),
}

// Whether a name belongs to the lower half of a leaf of this depth. A hash has a bit behind 31 others at most.
fn has_low_bit(name: &[u8], depth: u16) -> bool
    ensures { result ≡ is_lower_name depth name.now }
{
    let place = 31u16.saturating_sub(depth);
    (crc32(name) >> u32::from(place)) % 2 == 0
}

// Whether a record is one of these.
pub(crate) fn is_of(held: &Record, part: Part) -> bool
    ensures { (s : Slot) → IsShown held.now.head held.now.name.now s → result ≡ belongs part s }
{
    if !held.head.is_in_use() {
        return false;
    }
    match part {
        Part::InUse => true,
        Part::Lower(depth) => has_low_bit(held.name, depth),
    }
}

// The first of these records in an area, and the area behind it.
pub(crate) fn next_of(area: &[u8], part: Part) -> Option<(Record<'_>, &[u8])>
    requires { IsArea area.now }
    ensures { MatchOption result (filter (belongs part) (slots_of area.now) ≡ []) (λ p. IsNextOf part area.now p.0.head p.0.name.now p.1.now) }
{
    let mut rest = area;
    while let Some((record, behind)) = next_record(rest) {
        if is_of(&record, part) {
            return Some((record, behind));
        }
        rest = behind;
    }
    None
}
