//! Laws of calls and their orders.

ghost use Rattle.pts_outcomes.specs.Laws as laws;

/// What an evaluation does is told by the notes of its position and by the cells that it may touch, and it writes no others.
pub fn evaluations_touch_their_cells()
    ensures { laws.TouchesTell }
{}

/// Evaluations at two positions commute where neither writes a cell that both may touch.
pub fn evaluations_apart_commute()
    ensures { laws.ApartCommute }
{}

/// Index order is allowed under every policy.
pub fn index_order_is_allowed()
    ensures { laws.IndexOrderIsAllowed }
{}

/// Where no two evaluations of a call conflict, each order that its policy allows has the outcome of index order.
pub fn orders_agree()
    ensures { laws.OrdersAgree }
{}

/// A call that runs in order has no conflict.
pub fn calls_in_order_are_clear()
    ensures { laws.InOrderIsClear }
{}
