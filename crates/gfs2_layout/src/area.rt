ghost use Rattle.std.specs.Prelude.{◌≡◌, ◌+◌, ◌^◌, ◌≤◌, ◌<◌, ◌↔◌, length, take, drop, [], Some, None, false, IsTrue, IfSome, MatchOption};
ghost use Rattle.gfs2_layout.specs.Structures.{is_in_use};
ghost use Rattle.gfs2_layout.specs.Bytes.{u16_at as number_16};
ghost use Rattle.gfs2_layout.specs.Area.{IsArea, IsRecordAt, IsFirstRecord, HasItsName, name_of, has_no_record, has_name, slots_of, slot_at, first_named};

use crate::Dirent;

// Whether no record begins where these bytes do.
fn no_record(bytes: &[u8]) -> bool
    ensures { result ≡ has_no_record bytes.now }
{
    if bytes.len() < 40 {
        return true;
    }
    let length = Dirent::head(bytes).rec_len as usize;
    length < 40 || bytes.len() < length
}

// The length of the record that begins here, and the bytes behind it.
pub(crate) fn past_record(bytes: &[u8]) -> (u32, &[u8])
    requires { has_no_record bytes.now ≡ false }
    ensures least { 40 ≤ result.0 }
    ensures whole { result.0 + length result.1.now ≡ length bytes.now }
    ensures behind { result.1.now ≡ drop (number_16 20 bytes.now) bytes.now }
    ensures length { result.0 ≡ number_16 20 bytes.now }
{
    let length = Dirent::head(bytes).rec_len;
    (u32::from(length), &bytes[length as usize..])
}

// Whether a record has its name in it, if it is in use.
fn is_named(bytes: &[u8]) -> bool
    requires { has_no_record bytes.now ≡ false }
    ensures { IsTrue result ↔ HasItsName (slot_at bytes.now) }
{
    let head = Dirent::head(bytes);
    !head.is_in_use() || 40 + head.name_len as usize <= head.rec_len as usize
}

/// Whether the bytes are an area of records: the records fill it, and each that is in use has its name in
/// it. It goes over the records once.
pub fn is_area(area: &[u8]) -> bool
    ensures { IsTrue result ↔ IsArea area.now }
{
    let mut rest = area;
    while !rest.is_empty() {
        if no_record(rest) {
            return false;
        }
        if !is_named(rest) {
            return false;
        }
        rest = past_record(rest).1;
    }
    true
}

// Whether a record is in use and has this name.
fn is_record_of(bytes: &[u8], name: &[u8]) -> bool
    requires record { has_no_record bytes.now ≡ false }
    requires named { HasItsName (slot_at bytes.now) }
    ensures { result ≡ has_name name.now (slot_at bytes.now) }
{
    let head = Dirent::head(bytes);
    if !head.is_in_use() {
        return false;
    }
    &bytes[40..40 + head.name_len as usize] == name
}

/// The place, in bytes, of the first record in use of this name. It goes over the records up to that one.
pub fn find_record(area: &[u8], name: &[u8]) -> Option<u32>
    requires area { IsArea area.now }
    requires short { length area.now < 2 ^ 32 }
    ensures first { MatchOption result (first_named name.now (slots_of area.now) ≡ None)
        (λ at. (at + 40 ≤ length area.now) × (first_named name.now (slots_of area.now) ≡ Some (slot_at (drop at area.now)))) }
    ensures place { IfSome result (IsRecordAt area.now) }
    ensures none_before { IfSome result (λ at. first_named name.now (slots_of (take at area.now)) ≡ None) }
{
    let mut at = 0u32;
    let mut rest = area;
    while !rest.is_empty() {
        if is_record_of(rest, name) {
            return Some(at);
        }
        let (length, behind) = past_record(rest);
        at += length;
        rest = behind;
    }
    None
}

/// A record of an area: its head, and its name where it is in use.
#[derive(Clone, Copy, Debug)]
pub struct Record<'a> {
    pub head: Dirent,
    pub name: &'a [u8],
}

fn name_in(bytes: &[u8], head: Dirent) -> &[u8]
    requires record { has_no_record bytes.now ≡ false }
    requires head { head ≡ (slot_at bytes.now).head }
    requires named { HasItsName (slot_at bytes.now) }
    ensures { IsTrue (is_in_use head) → result.now ≡ name_of (slot_at bytes.now) }
{
    if head.is_in_use() {
        &bytes[40..40 + head.name_len as usize]
    } else {
        &bytes[..0]
    }
}

/// The first record of an area and the area behind it; `None` where the area has ended. It costs no more
/// than the head.
pub fn next_record(area: &[u8]) -> Option<(Record<'_>, &[u8])>
    requires { IsArea area.now }
    ensures { MatchOption result (slots_of area.now ≡ []) (λ p. IsFirstRecord area.now p.0.head p.0.name.now p.1.now) }
{
    if area.is_empty() {
        return None;
    }
    let head = Dirent::head(area);
    let name = name_in(area, head);
    Some((Record { head, name }, past_record(area).1))
}
