//! Laws of the operations: which of them may be grouped and turned freely, and what they never throw.

ghost use Rattle.std.specs.Prelude.{◌≢◌, ℕ, Err};
ghost use Rattle.pts_types.specs.Arithmetic.{IsReduction, converted, value_under};
ghost use Rattle.pts_types.specs.declared.value.Kind.{Kind};
ghost use Rattle.pts_types.specs.declared.value.Thrown.TheVariants.{Code};
ghost use Rattle.pts_types.specs.declared.value.Value.{Value};
ghost use Rattle.pts_types.specs.declared.operation.ScalarOp.{ScalarOp};
ghost use Rattle.pts_types.specs.Laws.{IsAssociative, IsCommutative, IsI64, IsSelection, IsU64};

/// Each of the seven operations of a reduction is associative on `u64`.
pub fn u64_operations_are_associative()
    ensures { (op : ScalarOp) → IsReduction op → IsAssociative IsU64 op }
{}

/// Each of the seven operations of a reduction is commutative on `u64`.
pub fn u64_operations_are_commutative()
    ensures { (op : ScalarOp) → IsReduction op → IsCommutative IsU64 op }
{}

/// `BitAnd`, `BitOr`, `BitXor`, `Min` and `Max` are associative on `i64`.
pub fn i64_operations_are_associative()
    ensures { (op : ScalarOp) → IsSelection op → IsAssociative IsI64 op }
{}

/// `BitAnd`, `BitOr`, `BitXor`, `Min` and `Max` are commutative on `i64`.
pub fn i64_operations_are_commutative()
    ensures { (op : ScalarOp) → IsSelection op → IsCommutative IsI64 op }
{}

/// No operation throws a code: what `apply` throws is Overflow or DivZero.
pub fn no_operation_throws_a_code()
    ensures { (op : ScalarOp) (x y : Value) (code : ℕ) → value_under op x y ≢ Err (Code code) }
{}

/// No conversion throws a code: what `convert` throws is Overflow.
pub fn no_conversion_throws_a_code()
    ensures { (to : Kind) (x : Value) (code : ℕ) → converted to x ≢ Err (Code code) }
{}
