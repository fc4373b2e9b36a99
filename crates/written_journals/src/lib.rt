//! What a journal says once a transaction was written to it: laws.
#![tactic(auto)]

ghost use Rattle.written_journals.specs.Saying.{OwnTailBeginsAnew, SizeIsLength, WhatIsWrittenIsSaid};

/// A law: what is written to a journal that is ready for it is what the journal then says.
pub fn what_is_written_is_said()
    ensures { WhatIsWrittenIsSaid }
{}

/// A law: a journal whose new header tells its own place as the tail begins anew, with nothing live.
pub fn own_tail_begins_anew()
    ensures { OwnTailBeginsAnew }
{}

/// A law: a transaction is written in as many blocks as its size says.
pub fn size_is_length()
    ensures { SizeIsLength }
{}
