ghost use Rattle.std.specs.Prelude.{◌≡◌, ◌<◌};
ghost use Rattle.node_journal.specs.Places.{place_on};

/// The place so many places on, which are fewer than the ring has.
#[tactic(auto, using(crate::proofs::Arounds::around))]
pub(crate) fn place_after(places: u32, place: u32, count: u32) -> u32
    requires inside { place < places }
    requires few { count < places }
    ensures value { result ≡ place_on places place count }
    ensures inside { result < places }
{
    let rest = places - place;
    if count < rest {
        place + count
    } else {
        count - rest
    }
}
