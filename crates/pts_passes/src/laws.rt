//! Laws of loops and their orders.

ghost use Rattle.pts_passes.specs.Laws as laws;

/// Index order is allowed under every policy.
pub fn index_order_is_allowed()
    ensures { laws.IndexOrderIsAllowed }
{}

/// Where no two evaluations of a loop conflict, all orders that its policy allows write the same, give the same to each view at each
/// position, and throw alike; and so the loop ends alike along them.
pub fn orders_agree()
    ensures outcomes { laws.OrdersAgree }
    ensures ends { laws.EndsAgree }
{}

/// A loop that runs in order has no conflict.
pub fn loops_in_order_are_free()
    ensures { laws.InOrderIsFree }
{}

/// What stands between two points of one `vec_off` block has it too ([parallel.alg.vecoff]).
pub fn offs_stand_together()
    ensures { laws.OffsStandTogether }
{}

/// The names of the arrays and functions of a loop, as the rules see them.
pub fn names_are_known()
    ensures { laws.NamesAreKnown }
{}
