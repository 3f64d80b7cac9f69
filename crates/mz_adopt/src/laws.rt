//! What holds of the rules of adoption from every state.
ghost use Rattle.mz_adopt.specs.Laws.{OrderIsFree, LeadsToOne};

/// From states that are the same up to order a give and a take lead to states that are.
pub fn order_is_free()
    ensures { OrderIsFree }
{}

/// A give or a take leads from a state to one state, order aside.
pub fn leads_to_one()
    ensures { LeadsToOne }
{}
