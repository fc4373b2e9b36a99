ghost use Rattle.std.specs.Prelude.{◌≡◌, ◌+◌, ◌<◌, ◌≤◌, ℕ};
ghost use Rattle.log_layout.specs.Journal.{Ring, accepted as accepted_at, best_from, better as better_of, next, way};
ghost use Rattle.std.specs.Prelude.{Some};
ghost use Rattle.log_layout.specs.Journal.{head_in};
ghost use Rattle.log_layout.specs.declared.log_header.LogHeader.{LogHeader as LogHeaderValue};

use crate::log_header::LogHeader;

/// The log header that is accepted at a place, if one is: it reads well, and tells that place.
pub fn accepted(place: u32, block: &[u8]) -> Option<LogHeader>
    ensures { result ≡ accepted_at place block.now }
{
    match LogHeader::read(block) {
        Ok(header) if header.blkno == place => Some(header),
        _ => None,
    }
}

/// Of two headers that of higher sequence, and of equal ones the first.
pub fn better(first: Option<LogHeader>, second: Option<LogHeader>) -> Option<LogHeader>
    ensures { result ≡ better_of first second }
{
    match (first, second) {
        (Some(one), Some(other)) if one.sequence < other.sequence => Some(other),
        (Some(one), _) => Some(one),
        (None, other) => other,
    }
}

/// The place behind one, in a ring of so many.
pub fn next_place(places: u32, place: u32) -> u32
    requires { place < places }
    ensures value { result ≡ next places place }
    ensures inside { result < places }
{
    if place + 1 < places { place + 1 } else { 0 }
}

/// How many places it is from one on to another, round a ring of so many.
pub fn places_between(places: u32, from: u32, to: u32) -> u32
    requires from_in { from < places }
    requires to_in { to < places }
    ensures value { result ≡ way places from to }
    ensures inside { result < places }
{
    if from <= to {
        to - from
    } else {
        places - from + to
    }
}

/// A law: the best header of some places and one more is the better of theirs and the one's.
pub fn best_headers_go_on()
    ensures { (ring : Ring) (n : ℕ) → best_from ring 0 (n + 1) ≡ better_of (best_from ring 0 n) (accepted_at n (ring.at n)) }
{}

/// A law: a journal's head stands at the place that it tells, and is accepted there.
pub fn heads_are_accepted()
    ensures { (ring : Ring) (head : LogHeaderValue) → head_in ring ≡ Some head → (head.blkno < ring.places) × (accepted_at head.blkno (ring.at head.blkno) ≡ Some head) }
{}
