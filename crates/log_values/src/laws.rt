// That what always holds of a log holds still, whatever is done.
ghost use Rattle.log_values.specs.Laws.{ChangeKeeps, EmptyIsSound, FlushKeeps, HomingKeeps, LiveFits, RevokingKeeps, SettlingKeeps, SmallChangesFit};

/// A law: an empty log is sound.
pub fn an_empty_log_is_sound()
    ensures { EmptyIsSound }
{}

/// A law: a log stays sound with the change of a call for which there is room.
pub fn a_change_keeps()
    ensures { ChangeKeeps }
{}

/// A law: a log stays sound with each step of a flush, and once it is in the journal.
pub fn a_flush_keeps()
    ensures { FlushKeeps }
{}

/// A law: a log stays sound as its live blocks go home.
pub fn homing_keeps()
    ensures { HomingKeeps }
{}

/// A law: a log stays sound with a barrier.
pub fn settling_keeps()
    ensures { SettlingKeeps }
{}

/// A law: a log stays sound as the blocks of a lock are to be revoked.
pub fn revoking_keeps()
    ensures { RevokingKeeps }
{}

/// A law: fewer blocks are live than the journal has places.
pub fn live_blocks_fit()
    ensures { LiveFits }
{}

/// A law: a log of which all is flushed and home takes any change of at most 375 blocks, with 512 frames and 512 live blocks.
pub fn small_changes_fit()
    ensures { SmallChangesFit }
{}
