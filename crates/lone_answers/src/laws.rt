//! What reads leave as it is.
ghost use Rattle.lone_answers.specs.Laws.{ReadingKeeps};

/// A law: the image on which a node works it works on behind whatever it reads.
pub fn reading_keeps()
    ensures { ReadingKeeps }
{}
