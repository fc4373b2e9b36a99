//! One node alone on an image, with its log: what always holds of its disk, its log and the blocks that it keeps, and a law for each of its steps. The functions do
//! nothing: their contracts are the laws.
#![tactic(auto)]

ghost use Rattle.lone_logs.specs.Laws.{Begins, BarriersSettle, BlocksAreWritten, BlocksGoHome, CallsAreLogged, FirstBarriersSettle, FlushesBegin, HeadersAreWritten, HeadersBegin, ItsHistoryIsLegal, ItsOutcomesStand, LastBarriersLand, QuietCallsAreLogged, ReadsAreLogged, SpacelessCallsAreLogged, SyncsAreLogged};

pub use image_disks::what_is_left_of_one_node_stands;
use log_rings::{
    blocks_of_flushes_say_nothing, clean_rings_begin, flushes_land, headers_of_flushes_fly,
};
pub use machine_outcomes::outcomes_are_the_machines;

/// A law: on an image that stands as it lies, each journal clean, the node begins with an empty log.
pub fn a_logged_node_begins()
    ensures { Begins }
{
    clean_rings_begin();
}

/// A law: it answers a call, and its log and what it keeps have the change; so it goes on with a call that changes nothing, with one for which there is no space, and with a sync, once all that
/// changed anything is in the journal.
pub fn its_calls_are_logged()
    ensures changing { CallsAreLogged }
    ensures quiet { QuietCallsAreLogged }
    ensures spaceless { SpacelessCallsAreLogged }
    ensures sync { SyncsAreLogged }
{}

/// A law: a block that a call needs, and that it doesn't keep, is on the disk what it works on, and it may keep it.
pub fn its_reads_are_logged()
    ensures { ReadsAreLogged }
{}

/// A law: a flush begins, with all that is due or as a header alone.
pub fn its_flushes_begin()
    ensures all { FlushesBegin }
    ensures alone { HeadersBegin }
{}

/// A law: a block of a flush is in flight.
pub fn its_blocks_are_written()
    ensures { BlocksAreWritten }
{
    blocks_of_flushes_say_nothing();
}

/// A law: the header of a flush is in flight.
pub fn its_headers_are_written()
    ensures { HeadersAreWritten }
{
    headers_of_flushes_fly();
    flushes_land();
}

/// A law: a barrier while no header is in flight settles what was, also that between the blocks of a flush and its header.
pub fn its_barriers_settle()
    ensures settles { BarriersSettle }
    ensures first { FirstBarriersSettle }
{
    outcomes_are_the_machines();
}

/// A law: with the last barrier of a flush it is in the journal.
pub fn its_flushes_land()
    ensures { LastBarriersLand }
{
    outcomes_are_the_machines();
    headers_of_flushes_fly();
    flushes_land();
}

/// A law: a live block is on its way home.
pub fn its_live_blocks_go_home()
    ensures { BlocksGoHome }
{}

/// A law: each outcome without a false header stands, its journals replayed, for the tree of what remains; and what was answered is a legal history.
pub fn what_remains_of_it()
    ensures outcomes { ItsOutcomesStand }
    ensures history { ItsHistoryIsLegal }
{
    outcomes_are_the_machines();
    what_is_left_of_one_node_stands();
}
