//! Which scripts break a rule of the language, what the first fault of a script is, and the lists of a script without one.
#![tactic(auto)]

mod builder;
mod checks;
mod fault;
mod info;
mod laws;
mod lengths;
mod lists;
mod program;
mod promises;
mod standing;
mod steps;

pub use builder::build;
pub use fault::BuildFault;
pub use info::{ArrayInfo, StatementInfo};
pub use laws::{
    a_fault_or_none, every_cell_has_its_kind, every_function_gives_its_kind, every_index_in_range,
    functions_call_earlier_ones, functions_have_typed_bodies, one_fault,
};
pub use program::Program;
pub use promises::{
    each_call_has_its_text, every_name_is_known, every_range_lies_in_its_array,
    every_run_stands_in_its_block, every_statement_keeps_the_rules_of_kinds,
    every_sum_is_one_number, every_sum_keeps_its_value, names_of_arrays_and_functions_differ,
    statements_have_their_numbers,
};
pub use pts_code::FunctionInfo;
pub use pts_constants::{BlockInfo, CallText};
pub use pts_points::{Branch, CallInfo, PointForm, PointInfo};
pub use pts_steps::Step;
