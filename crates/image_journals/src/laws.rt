//! What the replay of an image means for its journals. The function does nothing: its contract is the law.
ghost use Rattle.image_journals.specs.Laws.{ReplayedShareTheirSystem};

/// A law: an image that stands once its journals are replayed has the system files of its replayed image, so that one's journals are found in it.
pub fn standing_replays_share_their_system()
    ensures { ReplayedShareTheirSystem }
{}
