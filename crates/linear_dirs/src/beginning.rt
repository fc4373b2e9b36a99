// The records of a directory without names.
ghost use Rattle.std.specs.Prelude.{◌≡◌, ◌≢◌, ◌-◌, ◌≤◌, [], ◌∷◌, true, false, length, replicate, codes, Some};
ghost use Rattle.std.specs.List.{list_any};
ghost use Rattle.gfs2_layout.specs.Area.{IsArea, slot_at, slots_of};
ghost use Rattle.gfs2_layout.specs.Putting.{has_room, least_length, put_slot};
ghost use Rattle.gfs2_layout.specs.Records.{IsRecordArea, records_in};
ghost use Rattle.gfs2_layout.specs.Structures.{is_in_use};
ghost use Rattle.linear_dirs.specs.Shown.{dots_in, record_for, head_for as head_of_entry};

use crate::putting::head_for;
use gfs2_layout::{Dirent, Inum, areas_exchange_records, areas_join, put_record};
use glock_names::Entry;

// Makes the bytes an area of one record that isn't in use, and zeros behind its head.
fn clear(area: &mut [u8])
    requires least { 40 ≤ length area.old }
    requires most { length area.old ≤ 4096 }
    ensures slots { slots_of area.new ≡ slot_at area.new ∷ [] }
    ensures unused { is_in_use (slot_at area.new).head ≡ false }
    ensures long { (slot_at area.new).head.rec_len ≡ length area.old }
    ensures body { (slot_at area.new).body ≡ replicate (length area.old - 40) 0 }
    ensures area { IsArea area.new }
{
    areas_join();
    area.fill(0);
    let unused = Dirent {
        inum: Inum {
            number: 0,
            address: 0,
        },
        hash: 0,
        rec_len: area.len() as u16,
        name_len: 0,
        kind: 0,
        rahead: 0,
    };
    unused.write(area);
}

// Puts the record of a name that leads to this entry, which has room.
fn put_entry(area: &mut [u8], name: &[u8], entry: &Entry)
    requires area { IsRecordArea area.old }
    requires some { 1 ≤ length name.now }
    requires short { length name.now ≤ 255 }
    requires number { entry.now.number ≢ 0 }
    requires address { entry.now.addr ≢ 0 }
    requires room { list_any (has_room (least_length (length name.now))) (slots_of area.old) ≡ true }
    ensures put { put_slot (head_of_entry name.now entry.now) name.now (slots_of area.old) ≡ Some (slots_of area.new) }
    ensures area { IsRecordArea area.new }
{
    areas_exchange_records();
    put_record(area, &head_for(name, entry), name);
}

/// Makes the bytes behind a dinode the records of a directory without names: `.`, which leads to the directory itself, and
/// `..`, which leads to the one above and has the rest of the area. What else stood there becomes zeros. It costs a step for
/// each byte.
pub fn begin(area: &mut [u8], own: Entry, parent: Entry)
    requires least { 280 ≤ length area.old }
    requires most { length area.old ≤ 3864 }
    requires own_number { own.number ≢ 0 }
    requires own_address { own.addr ≢ 0 }
    requires parent_number { parent.number ≢ 0 }
    requires parent_address { parent.addr ≢ 0 }
    ensures area { IsRecordArea area.new }
    ensures slots { slots_of area.new ≡ dots_in (length area.old) own parent }
    ensures records { records_in area.new ≡ record_for (codes ".") own ∷ record_for (codes "..") parent ∷ [] }
    ensures size { length area.new ≡ length area.old }
{
    clear(area);
    put_entry(area, b".".as_slice(), &own);
    put_entry(area, b"..".as_slice(), &parent);
}
