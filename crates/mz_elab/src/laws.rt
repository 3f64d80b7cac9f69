//! Laws of the guided rules.
ghost use Rattle.mz_elab.specs.Laws.{AtMostOneIsWanting, LeadsToOneList, NothingGuidedLacks};

/// The guided rules have no choice: they lead from a list of permissions through commands to one list.
pub fn leads_to_one_list()
    ensures { LeadsToOneList }
{}

/// A program that is guided lacks no permission.
pub fn nothing_guided_lacks()
    ensures { NothingGuidedLacks }
{}

/// At most one permission is the first that is wanting, at one place.
pub fn at_most_one_is_wanting()
    ensures { AtMostOneIsWanting }
{}
