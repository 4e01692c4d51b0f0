//! Laws of the values of expressions.

ghost use Rattle.std.specs.Prelude.{◌≡◌, ℕ, Bool, false, IsTrue, List, [], Option, Some, slice_get};
ghost use Rattle.pts_types.specs.Arithmetic.{GivesKind};
ghost use Rattle.pts_types.specs.declared.value.Kind.{Kind};
ghost use Rattle.pts_types.specs.declared.value.Value.{Value};
ghost use Rattle.pts_tree.specs.Expressions.{expr_allowed};
ghost use Rattle.pts_tree.specs.declared.expr.Expr.{Expr};
ghost use Rattle.pts_rules.specs.Counts.{reads};
ghost use Rattle.pts_code.specs.declared.function.FunctionInfo.{FunctionInfo};
ghost use Rattle.pts_code.specs.Functions.{environment_of, kinds_of, outcome_of};
ghost use Rattle.pts_code.specs.Laws.{DependsOnItsOwn};
ghost use Rattle.pts_code.specs.Outcomes.{Outcome};
ghost use Rattle.pts_code.specs.Soundness.{AreOfKinds, HasKind, HaveTheirKinds, HaveTypedBodies, operators_right};
ghost use Rattle.pts_code.specs.Values.{Environment, Reads, count, listed, noted, numbers, valuation, value_of};

/// An expression takes as many notes as it reads elements, those of indices among them.
pub fn elements_are_points()
    ensures { (env : Environment) (notes : List (Option Outcome)) (x : Expr) → count (valuation env (noted notes) x) ≡ reads x }
{}

/// In a list of elements it takes as many entries as it reads elements that stand in no index.
pub fn outer_elements_are_listed()
    ensures { (env : Environment) (outcomes : List Outcome) (x : Expr) → count (valuation env (listed outcomes) x) ≡ numbers false x }
{}

/// The value of an expression depends on what its own elements gave, and on no others.
pub fn values_depend_on_their_own_elements()
    ensures { (env : Environment) (indices : Bool) (f g : ℕ → Outcome) (x : Expr) → DependsOnItsOwn env indices f g x }
{}

/// In each expression that the grammar has, chains have operators that compute, and comparisons those that compare.
pub fn grammar_has_operators_right()
    ensures { (x : Expr) → IsTrue (expr_allowed x) → IsTrue (operators_right x) }
{}

/// An expression whose place asks a kind, by the rules, gives a value of the kind or throws.
pub fn expressions_give_their_kinds()
    ensures { (elements : Bool) (env : Environment) (reads : Reads) (kind : Kind) (n : ℕ) (x : Expr) → HasKind elements env reads kind n x → GivesKind kind (value_of env reads kind n x) }
{}

/// A function whose body has its kind, as the bodies of those before it have, gives a value of its kind for arguments of its
/// kinds, or throws.
pub fn functions_give_their_kinds()
    ensures { (functions : List FunctionInfo) (number : ℕ) (f : FunctionInfo) (arguments : List Value) → HaveTypedBodies [] functions → slice_get functions number ≡ Some f → AreOfKinds (kinds_of f.params) arguments → GivesKind f.kind (outcome_of functions number arguments) }
{}

/// The names of such functions have their kinds.
pub fn names_of_functions_have_their_kinds()
    ensures { (functions : List FunctionInfo) → HaveTypedBodies [] functions → HaveTheirKinds (environment_of functions) }
{}
