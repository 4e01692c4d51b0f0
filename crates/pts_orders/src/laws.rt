//! Laws of orders, for whatever runs the evaluations of a call in an order of its own. A type parameter stands for whatever
//! states, or changes of states, the evaluations have.

ghost use Rattle.pts_orders.specs.Conflicts as conflicts;
ghost use Rattle.pts_orders.specs.Evaluations.{Evaluation};
ghost use Rattle.pts_orders.specs.Laws as laws;
ghost use Rattle.pts_orders.specs.Windows as windows;

/// Which cells evaluations touch.
pub trait Touching<C> {
    ghost touches: { Evaluation → C → Type 0 };
}

/// An order is allowed exactly where each evaluation stands in it once, at a lower place than all that it is before.
pub fn places_tell_what_is_allowed()
    ensures { laws.PlacesTell }
{}

/// Index order is allowed, whatever is before what, as long as nothing is before what is earlier.
pub fn index_order_is_allowed()
    ensures { laws.IndexOrderExtends }
{}

/// All orders that are allowed have one outcome, that of index order, where evaluations commute unless one is before the other.
pub fn orders_agree<S>()
    ensures { laws.OrdersAgree S }
{}

/// Strips are allowed where their parts are cut at cuts.
pub fn strips_are_allowed()
    ensures { laws.StripsExtend }
{}

/// Where points that belong together are joined, the parts end at cuts, and the ends do not fall.
pub fn parts_end_at_cuts()
    ensures { laws.PartsEndAtCuts }
{}

/// Index order is strips, of one position each, whose ends do not fall.
pub fn index_order_is_strips()
    ensures { laws.IndexOrderIsStrips }
{}

/// Chunks are allowed in any order where no evaluation is before one of another position.
pub fn chunks_are_allowed()
    ensures { laws.ChunksExtend }
{}

/// A change that no evaluation sees may be made before a run or after it.
pub fn changes_may_wait<S>()
    ensures { laws.ChangesMayWait S }
{}

/// Two parts that see nothing of one another may both be run from the state before them.
pub fn parts_run_apart<S, C>()
    ensures { laws.PartsRunApart S C }
{}

/// Evaluations commute where they are at two positions and share no cell that one of them writes.
pub fn evaluations_apart_commute<M, C, V, L, N, T: Touching<C>>()
    ensures { conflicts.ApartCommute M C V L N T.touches }
{}

/// All orders that are allowed have one outcome, that of index order, where no two evaluations conflict.
pub fn orders_without_conflict_agree<M, C, V, L, N, T: Touching<C>>()
    ensures { conflicts.ClearOrdersAgree M C V L N T.touches }
{}

/// Two parts may both be run from the state before them where no evaluation of the one shares a cell that is written, or a
/// position, with one of the other.
pub fn parts_without_conflict_run_apart<M, C, V, L, N, T: Touching<C>>()
    ensures { conflicts.ApartRunApart M C V L N T.touches }
{}

/// Strips may each be run on the locals of their own positions alone, one after the other over one memory.
pub fn strips_run_in_windows<M, C, V, L, N>()
    ensures { windows.StripsInWindows M C V L N }
{}
