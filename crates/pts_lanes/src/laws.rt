//! That the words of the contracts leave nothing of an operation out.

ghost use Rattle.std.specs.Prelude.{◌≡◌, ℕ, Ok};
ghost use Rattle.pts_types.specs.Arithmetic.{u64_under};
ghost use Rattle.pts_types.specs.declared.operation.ScalarOp.{ScalarOp};
ghost use Rattle.pts_types.specs.declared.value.Value.TheVariants as values;
ghost use Rattle.pts_lanes.specs.Kernels.{GivesNumbers, IsComparison, number_under, truth_under};

/// Each of the seven operations of a reduction, and `Minus`, gives a number for any two numbers, and throws nothing.
pub fn operations_give_numbers()
    ensures { (op : ScalarOp) → GivesNumbers op → (m n : ℕ) → u64_under op m n ≡ Ok (values.U64 (number_under op m n)) }
{}

/// Each comparison gives a truth for any two numbers, and throws nothing.
pub fn comparisons_give_truths()
    ensures { (op : ScalarOp) → IsComparison op → (m n : ℕ) → u64_under op m n ≡ Ok (values.Bool (truth_under op m n)) }
{}
