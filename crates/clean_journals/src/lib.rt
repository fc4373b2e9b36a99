//! What a journal says once a clean header was written behind its head: a law.
#![tactic(auto)]

ghost use Rattle.clean_journals.specs.Ended.{CleanHeadersEnd};

/// A law: a journal behind whose head a clean header was written is clean, and nothing is live in it.
pub fn clean_headers_end()
    ensures { CleanHeadersEnd }
{}
