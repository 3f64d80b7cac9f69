//! What holds of all tokens.
ghost use Rattle.mz_parse.specs.Laws.{AtMostOneTree, AtMostOneFault, NoTreeAndFault, TreeOrFault};

/// Tokens have at most one tree.
pub fn at_most_one_tree()
    ensures { AtMostOneTree }
{}

/// Tokens have at most one fault, at one place.
pub fn at_most_one_fault()
    ensures { AtMostOneFault }
{}

/// Tokens with a fault have no tree within the limit of brackets.
pub fn no_tree_and_fault()
    ensures { NoTreeAndFault }
{}

/// All tokens have a tree within the limit of brackets or a fault.
pub fn tree_or_fault()
    ensures { TreeOrFault }
{}
