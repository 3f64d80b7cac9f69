//! Laws of the format.
ghost use Rattle.mz_script.specs.Laws.{AtMostOneText, AtMostOneDerivation, SpelledHasText};

/// A derivation has at most one text.
pub fn at_most_one_text()
    ensures { AtMostOneText }
{}

/// A text is the text of at most one derivation, for a program that was read.
pub fn at_most_one_derivation()
    ensures { AtMostOneDerivation }
{}

/// A derivation has the form of a script just where some text is its text.
pub fn spelled_has_text()
    ensures { SpelledHasText }
{}
