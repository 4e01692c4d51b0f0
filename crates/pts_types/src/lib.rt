//! Kinds, values and operations of the scripts' arithmetic.
#![tactic(auto)]

mod conversion;
mod identities;
mod laws;
mod operation;
#[cfg(test)]
mod tests;
mod value;

pub use conversion::{convert, negate};
pub use identities::identity;
pub use laws::{
    i64_operations_are_associative, i64_operations_are_commutative, no_conversion_throws_a_code,
    no_operation_throws_a_code, u64_operations_are_associative, u64_operations_are_commutative,
};
pub use operation::{Policy, ScalarOp, apply};
pub use value::{Kind, NoMemory, Thrown, Value};
