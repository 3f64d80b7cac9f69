//! What holds of every text: it has one list of tokens, or one fault.
ghost use Rattle.mz_token.specs.Laws.{AtMostOneList, AtMostOneFault, NoListAndFault, TokensOrFault};

/// A text has at most one list of tokens.
pub fn at_most_one_list()
    ensures { AtMostOneList }
{}

/// A text has at most one fault, at one place.
pub fn at_most_one_fault()
    ensures { AtMostOneFault }
{}

/// A text with a fault has no list of tokens.
pub fn no_list_and_fault()
    ensures { NoListAndFault }
{}

/// Each text has a list of tokens or a fault.
pub fn tokens_or_fault()
    ensures { TokensOrFault }
{}
