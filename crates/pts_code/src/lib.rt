//! Functions as code with numbers in place of names, and the values that it gives.
#![tactic(auto)]

mod code;
mod codes;
mod compiling;
mod evaluation;
mod function;
mod laws;
mod numbers;
#[cfg(test)]
mod tests;
mod values;

pub use code::{Code, Step};
pub use codes::{Codes, enter_functions};
pub use compiling::{Choice, Comparison, Names, Spot, compile};
pub use evaluation::{Frame, eval};
pub use function::FunctionInfo;
pub use laws::{
    elements_are_points, expressions_give_their_kinds, functions_give_their_kinds,
    grammar_has_operators_right, names_of_functions_have_their_kinds, outer_elements_are_listed,
    values_depend_on_their_own_elements,
};
pub use numbers::numbers_in;
pub use values::{
    inverted, is_true, literal_value, negated, number_value, operated, opposite, throw_code,
};
