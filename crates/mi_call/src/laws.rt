//! What is true of all texts of the command. The function does nothing.
ghost use Rattle.mi_call.specs.Meaning.{OneHistory};

/// One text has one history: runs within their limits that have the same text have the same log and
/// the same replies, whether scripts were replayed or run in threads.
pub fn one_text_has_one_history()
    ensures { OneHistory }
{}
