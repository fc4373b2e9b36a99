//! What the definitions of log headers and of journals mean. The functions do nothing: their contracts are the laws.
ghost use Rattle.log_layout.specs.Laws.{CleanHasNothingLive, HeadersReadBack, PlacesSayAll};

use gfs2_layout::structures_read_back;

/// A law: a log header of either version is read as it was written, but for the later fields of one whose checksum comes out as zero.
pub fn headers_read_back()
    ensures { HeadersReadBack }
{
    structures_read_back();
}

/// A law: a journal says what its places have. Of two with the same blocks at their places head, transactions and live blocks are the
/// same.
pub fn places_say_all()
    ensures { PlacesSayAll }
{}

/// A law: in a clean journal nothing is live, and it can be read.
pub fn clean_journals_have_nothing_live()
    ensures { CleanHasNothingLive }
{}
