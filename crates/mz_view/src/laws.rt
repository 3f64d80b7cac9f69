//! What holds of view steps from every state.
ghost use Rattle.mz_view.specs.Laws.{OrderIsFree, LeadsToOne};

/// From states that are the same up to order a view step leads to states that are.
pub fn order_is_free()
    ensures { OrderIsFree }
{}

/// A view step leads from a state to one state, order aside.
pub fn leads_to_one()
    ensures { LeadsToOne }
{}
