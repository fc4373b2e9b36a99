ghost use Rattle.script_lang.specs.Laws.{LimitDecides};

/// A law: where a text has more bytes than a script may have, what follows it changes nothing, and it is no script.
/// So whoever reads a script may stop there.
pub fn limit_decides()
    ensures { LimitDecides }
{}
