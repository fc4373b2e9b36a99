//! Putting a record into an area, as Linux does in `fs/gfs2/dir.c`.
ghost use Rattle.std.specs.Prelude.{◌≡◌, ◌+◌, ◌-◌, ◌^◌, ◌≤◌, ◌<◌, ◌++◌, length, take, drop, true, false, Some, MatchOption};
ghost use Rattle.std.specs.List.{list_any};
ghost use Rattle.gfs2_layout.specs.Bytes.{slice, u16_at as number_16};
ghost use Rattle.gfs2_layout.specs.Area.{IsArea, has_no_record, slot_at, slots_of};
ghost use Rattle.gfs2_layout.specs.Putting.{IsEntryOf, least_length as least_of, has_room, new_slot, put_into, put_slot, IsFirstWithRoom};

use crate::Dirent;
use crate::area::past_record;
use crate::numbers::{put_bytes, put_u16};

/// What a record of a name of this length takes at least, in bytes: its head and the name, filled up to a
/// multiple of 8.
pub fn least_length(name_len: u16) -> u32
    ensures { result ≡ least_of name_len }
{
    (40 + u32::from(name_len) + 7) / 8 * 8
}

// Whether the record that begins here has room for so many bytes, behind what is taken of it.
fn finds_room(bytes: &[u8], needed: u32) -> bool
    requires record { has_no_record bytes.now ≡ false }
    requires few { needed < 2 ^ 31 }
    ensures { result ≡ has_room needed (slot_at bytes.now) }
{
    let head = Dirent::head(bytes);
    let taken = if head.is_in_use() {
        least_length(head.name_len)
    } else {
        0
    };
    taken + needed <= u32::from(head.rec_len)
}

// The place of the first record that has room for so many bytes.
fn place_with_room(area: &[u8], needed: u32) -> Option<usize>
    requires area { IsArea area.now }
    requires few { needed < 2 ^ 31 }
    ensures { MatchOption result (list_any (has_room needed) (slots_of area.now) ≡ false) (λ at. IsFirstWithRoom needed area.now at) }
{
    let mut at = 0;
    let mut rest = area;
    while !rest.is_empty() {
        if finds_room(rest, needed) {
            return Some(at);
        }
        let (length, behind) = past_record(rest);
        at += length as usize;
        rest = behind;
    }
    None
}

// Writes a record of this length over the bytes that begin here. Behind the name they stay.
fn write_record(bytes: &mut [u8], entry: &Dirent, rec_len: u16, name: &[u8])
    requires name { 40 + length name.now ≤ rec_len }
    requires inside { rec_len ≤ length bytes.old }
    ensures slot { slot_at bytes.new ≡ new_slot entry.now name.now (slice 40 (rec_len - 40) bytes.old) }
    ensures behind { drop rec_len bytes.new ≡ drop rec_len bytes.old }
{
    let head = Dirent { rec_len, ..*entry };
    head.write(bytes);
    put_bytes(bytes, 28, &[0; 12]);
    put_bytes(bytes, 40, name);
}

// Puts a record into the one that begins here, behind what is taken of it.
fn put_here(bytes: &mut [u8], entry: &Dirent, name: &[u8])
    requires area { IsArea bytes.old }
    requires some { 1 ≤ length bytes.old }
    requires entry { IsEntryOf entry.now name.now }
    requires room { has_room (least_of (length name.now)) (slot_at bytes.old) ≡ true }
    ensures slots { slots_of bytes.new ≡ put_into entry.now name.now (slot_at bytes.old) ++ slots_of (drop (number_16 20 bytes.old) bytes.old) }
    ensures area { IsArea bytes.new }
{
    let head = Dirent::head(bytes);
    if head.is_in_use() {
        let least = least_length(head.name_len);
        put_u16(bytes, 20, least as u16);
        write_record(
            &mut bytes[least as usize..],
            entry,
            head.rec_len - least as u16,
            name,
        );
    } else {
        write_record(bytes, entry, head.rec_len, name);
    }
}

/// Puts a record of this name into the first one, in order, that has room for it, and tells whether there
/// is one. An unused record is taken whole; one in use is cut to its least length, and the new one takes the
/// rest. All of the entry is written but its `rec_len`, which is not looked at; the pad becomes zeros. It
/// goes over the records up to that one.
pub fn put_record(area: &mut [u8], entry: &Dirent, name: &[u8]) -> bool
    requires area { IsArea area.old }
    requires entry { IsEntryOf entry.now name.now }
    ensures room { result ≡ list_any (has_room (least_of (length name.now))) (slots_of area.old) }
    ensures full { result ≡ false → area.new ≡ area.old }
    ensures put { result ≡ true → put_slot entry.now name.now (slots_of area.old) ≡ Some (slots_of area.new) }
    ensures area { IsArea area.new }
{
    match place_with_room(area, least_length(entry.name_len)) {
        Some(at) => {
            put_here(&mut area[at..], entry, name);
            true
        }
        None => false,
    }
}
