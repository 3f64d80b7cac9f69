//! What holds of the rules of commands and of the branches in which they go on.
ghost use Rattle.mz_flow.specs.Laws.{OrderIsFree, LeadsToOne, BranchOrderIsFree, BranchLeadsToOne};

/// The rules don't look at the order of a state: where a command leads from one state, it leads from every state that is
/// the same up to order, and to the same up to order.
pub fn order_is_free()
    ensures { OrderIsFree }
{}

/// A command leads from a state to one state, up to order.
pub fn leads_to_one()
    ensures { LeadsToOne }
{}

/// Branches don't look at the order of a state: where one begins from a state, it begins from every state that is the
/// same up to order, and with the same up to order.
pub fn branch_order_is_free()
    ensures { BranchOrderIsFree }
{}

/// A branch begins in one state, up to order.
pub fn branch_leads_to_one()
    ensures { BranchLeadsToOne }
{}
