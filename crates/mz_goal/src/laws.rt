//! What holds of goals from every state.
ghost use Rattle.mz_goal.specs.Laws.{LeadsToOne, ViewsLead};

/// The guided rules lead from a state by a goal to one state at most, in its order.
pub fn leads_to_one()
    ensures { LeadsToOne }
{}

/// Where the guided rules meet a goal, view steps lead to the state that they leave with the goal added, order aside.
pub fn views_lead()
    ensures { ViewsLead }
{}
