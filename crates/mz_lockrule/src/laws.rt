//! What holds of the rules of locks and threads from every state.
ghost use Rattle.mz_lockrule.specs.Laws.{OrderIsFree, LeadsToOne};

/// From states that are the same up to order a command leads to states that are.
pub fn order_is_free()
    ensures { OrderIsFree }
{}

/// A command leads from a state to one state, order aside.
pub fn leads_to_one()
    ensures { LeadsToOne }
{}
