//! What is true of all transcripts. The function does nothing.
ghost use Rattle.mi_print.specs.Meaning.{OneMeaning};

/// One text has one meaning: outcomes with the same transcript are the same in all that is printed.
pub fn one_text_has_one_meaning()
    ensures { OneMeaning }
{}
