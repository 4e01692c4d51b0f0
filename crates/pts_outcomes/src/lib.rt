//! What calls mean, once for map calls and loops: what their evaluations do, the outcome along a list of them, and that all orders
//! which a policy allows have one outcome where no two evaluations conflict. What expressions give is a parameter. Nothing runs here.
//! The definitions are in `specs/`: `Acts` says what is done at a point, `Effects` what an evaluation does, `Calls` the outcome along
//! a list and the orders that are allowed, `Touching` which cells an evaluation may touch, and `Laws` what holds of them.
#![tactic(auto)]

mod laws;

pub use laws::{
    calls_in_order_are_clear, evaluations_apart_commute, evaluations_touch_their_cells,
    index_order_is_allowed, orders_agree,
};
