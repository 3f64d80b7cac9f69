//! What holds of every program and every derivation.
ghost use Rattle.mz_deriv.specs.Laws.{NoDerivationIsRefused, AtMostOneRefusal, NoWalkOfAFunIsRefused, AtMostOneRefusalOfAFun, OrderIsFree, LeadsToOne};

/// A derivation of a program is refused at no point.
pub fn no_derivation_is_refused()
    ensures { NoDerivationIsRefused }
{}

/// What is refused is refused at one point.
pub fn at_most_one_refusal()
    ensures { AtMostOneRefusal }
{}

/// A function through whose body a script leads is refused at no point, whatever the declarations are.
pub fn no_walk_of_a_fun_is_refused()
    ensures { NoWalkOfAFunIsRefused }
{}

/// What is refused of a function is refused at one point.
pub fn at_most_one_refusal_of_a_fun()
    ensures { AtMostOneRefusalOfAFun }
{}

/// From states that are the same up to order a script leads through a body to states that are.
pub fn order_is_free()
    ensures { OrderIsFree }
{}

/// A script leads through a body from a state to one state, up to order.
pub fn leads_to_one()
    ensures { LeadsToOne }
{}
