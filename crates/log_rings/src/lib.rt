//! A node's log in memory and its journal on the disk: what the one has is what the other says, and a flush, step by step, keeps it so. The functions do nothing: their
//! contracts are the laws.
#![tactic(auto)]

ghost use Rattle.log_rings.specs.Laws.{BlocksSayNothing, CleanRingsBegin, FlushesFly, FlushesLand, HeadersFly, RingsOfLogsAreReadable};

use log_layout::places_say_all;
use log_values::live_blocks_fit;
use written_journals::{own_tail_begins_anew, what_is_written_is_said};

/// A law: a journal with a clean head is that of an empty log.
pub fn clean_rings_begin()
    ensures { CleanRingsBegin }
{}

/// A law: the blocks of a flush fly to free places, each to its own, and in their places they say nothing.
pub fn blocks_of_flushes_say_nothing()
    ensures fly { FlushesFly }
    ensures nothing { BlocksSayNothing }
{
    live_blocks_fit();
}

/// A law: the header of a flush flies to a free place, where it is the next one.
pub fn headers_of_flushes_fly()
    ensures { HeadersFly }
{
    live_blocks_fit();
}

/// A law: with its header in its place a flush is in the journal, which has live what the log says.
pub fn flushes_land()
    ensures { FlushesLand }
{
    what_is_written_is_said();
    own_tail_begins_anew();
    places_say_all();
    live_blocks_fit();
}

/// A law: the journal of a log can be read.
pub fn rings_of_logs_are_readable()
    ensures { RingsOfLogsAreReadable }
{}
