//! What holds from one call to the next. The functions do nothing: their contracts are the laws.
ghost use Rattle.hash_inserts.specs.Laws.{AbsentNamesStay, FirstNeedsStay, RoomsStayFree};

/// A law: once a linear directory is a hashed one, a name takes there as many blocks as were counted for it beside the first leaf.
pub fn first_needs_stay()
    ensures { FirstNeedsStay }
{}

/// A law: once the front of a room was taken for a directory, what is left may be taken for that.
pub fn rooms_stay_free()
    ensures { RoomsStayFree }
{}

/// A law: a name that a directory hasn't it hasn't where its records stayed, as after a conversion or a split.
pub fn absent_names_stay()
    ensures { AbsentNamesStay }
{}
