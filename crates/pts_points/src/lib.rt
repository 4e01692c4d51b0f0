//! The points at which a checked program touches its arrays, and its calls.
#![tactic(auto)]

mod builder;
mod calls;
mod items;
mod laws;
mod lines;
mod numbers;
mod point;
mod reads;
mod space;
mod statements;

pub use items::{ItemPoints, item_points};
pub use laws::{
    calls_have_the_points_that_name_them, clauses_and_answers_have_one_cell,
    lines_have_the_points_that_are_counted, numbers_are_places, offs_stand_together,
    points_stand_behind_what_they_need,
};
pub use lines::array_at;
pub use point::{Branch, CallInfo, PointForm, PointInfo};
