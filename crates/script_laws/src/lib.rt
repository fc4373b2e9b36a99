//! What the grammar of scripts means. The functions do nothing: their contracts are the laws.
#![tactic(auto)]

ghost use Rattle.script_laws.specs.Fills.{FillsBytes};
ghost use Rattle.script_laws.specs.Printing.{ReadBack, ReadCanBePrinted, ReadHasBytes};
ghost use Rattle.script_laws.specs.Places.{FirstWrongIsTold};

/// A law: a script that is printed is read back as the same script.
pub fn a_printed_script_is_read_back()
    ensures { ReadBack }
{}

/// A law: a content that is written by `fill` is its byte so many times.
pub fn a_fill_is_its_bytes()
    ensures { FillsBytes }
{}

/// A law: the place that is told of a wrong text is that of its first wrong word. No script goes on from the words up to and
/// with it, but where the limit of bytes comes in its line: that is told at its first word. Some script goes on from the words
/// before each word up to it, where the limit leaves room for one.
pub fn first_wrong_word_is_told()
    ensures { FirstWrongIsTold }
{}

/// A law: whatever a text is read as is well formed, and can be printed where that is not too long for a script.
pub fn a_read_script_can_be_printed()
    ensures { ReadCanBePrinted }
{}

/// A law: in whatever a text is read as the names of paths, and what is written, are of bytes.
pub fn a_read_script_has_bytes()
    ensures { ReadHasBytes }
{}
