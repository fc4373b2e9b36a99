// Records that move from one area to another.
ghost use Rattle.std.specs.Prelude.{◌≡◌, ◌+◌, ◌-◌, ◌^◌, ◌<◌, ◌≤◌, [], ◌∷◌, length, replicate, filter};
ghost use Rattle.gfs2_layout.specs.Bytes.{put_at};
ghost use Rattle.gfs2_layout.specs.Writing.{zeros_from};
ghost use Rattle.gfs2_layout.specs.Area.{Slot, IsArea, slot_at, slots_of};
ghost use Rattle.gfs2_layout.specs.Putting.{new_slot};
ghost use Rattle.leaf_areas.specs.Moving.{in_use, moved_length, packed, unused};
ghost use Rattle.leaf_areas.specs.Parts.{belongs};

use crate::parts::{Part, next_of};
use gfs2_layout::{Dirent, Inum, least_length};

// Zeros from a place on.
fn put_zeros(bytes: &mut [u8], at: usize)
    requires { at ≤ length bytes.old }
    ensures { bytes.new ≡ zeros_from at bytes.old }
{
    bytes[at..].fill(0);
}

// Bytes over those from a place on.
fn put_bytes(bytes: &mut [u8], at: usize, part: &[u8])
    requires { at + length part.now ≤ length bytes.old }
    ensures { bytes.new ≡ put_at at part.now bytes.old }
{
    bytes[at..at + part.len()].copy_from_slice(part);
}

// Makes of some bytes one record, a new one over zeros.
fn write_record(bytes: &mut [u8], entry: &Dirent, name: &[u8])
    requires name { 40 + length name.now ≤ length bytes.old }
    requires short { length bytes.old < 2 ^ 16 }
    ensures { slot_at bytes.new ≡ new_slot (record entry.now { rahead = 0 }) name.now (replicate (length bytes.old - 40) 0) }
{
    let head = Dirent {
        rec_len: bytes.len() as u16,
        rahead: 0,
        ..*entry
    };
    put_zeros(bytes, 40);
    head.write(bytes);
    put_bytes(bytes, 28, &[0; 12]);
    put_bytes(bytes, 40, name);
}

/// Makes of some bytes an area without records: one record that isn't in use, all zeros but for its length.
pub fn clear_area(area: &mut [u8])
    requires some { 40 ≤ length area.old }
    requires short { length area.old < 2 ^ 16 }
    ensures slots { slots_of area.new ≡ unused (length area.old) ∷ [] }
    ensures filled { IsArea area.new }
    ensures size { length area.new ≡ length area.old }
{
    let entry = Dirent {
        inum: Inum {
            number: 0,
            address: 0,
        },
        hash: 0,
        rec_len: 0,
        name_len: 0,
        kind: 0,
        rahead: 0,
    };
    write_record(area, &entry, &[]);
}

// How many bytes a record takes once it has moved.
fn length_of(head: &Dirent) -> usize
    ensures { (s : Slot) → head.now ≡ s.head → result ≡ moved_length s }
{
    least_length(head.name_len).min(u32::from(head.rec_len)) as usize
}

// Makes of some bytes an area with some records of another one, in order, each as short as it can be, and the last with the rest.
pub(crate) fn pack(from: &[u8], into: &mut [u8], part: Part) -> u16
    requires area { IsArea from.now }
    requires some { 40 ≤ length into.old }
    requires room { length from.now ≤ length into.old }
    requires short { length into.old < 2 ^ 16 }
    ensures slots { slots_of into.new ≡ packed (length into.old) (filter (belongs part) (slots_of from.now)) }
    ensures count { result ≡ length (filter (belongs part) (slots_of from.now)) }
    ensures filled { IsArea into.new }
    ensures size { length into.new ≡ length into.old }
{
    let Some((first, behind)) = next_of(from, part) else {
        clear_area(into);
        return 0;
    };
    let mut last = first;
    let mut rest = behind;
    let mut at = 0;
    let mut count = 1u16;
    while let Some((record, behind)) = next_of(rest, part) {
        let end = at + length_of(&last.head);
        write_record(&mut into[at..end], &last.head, last.name);
        at = end;
        last = record;
        rest = behind;
        count += 1;
    }
    write_record(&mut into[at..], &last.head, last.name);
    count
}

/// Makes of some bytes an area with the records of another one that are in use, in order, each as short as it can be, and the last with
/// the rest; and tells how many they are. It goes over the records once.
pub fn move_records(from: &[u8], into: &mut [u8]) -> u16
    requires area { IsArea from.now }
    requires some { 40 ≤ length into.old }
    requires room { length from.now ≤ length into.old }
    requires short { length into.old < 2 ^ 16 }
    ensures slots { slots_of into.new ≡ packed (length into.old) (in_use (slots_of from.now)) }
    ensures count { result ≡ length (in_use (slots_of from.now)) }
    ensures filled { IsArea into.new }
    ensures size { length into.new ≡ length into.old }
{
    pack(from, into, Part::InUse)
}
