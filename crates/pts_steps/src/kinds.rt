//! The kinds of what is computed.

ghost use Rattle.std.specs.Prelude.{◌≡◌, unwrap_or};
ghost use Rattle.pts_types.specs.declared.value.Kind.TheVariants as kinds;
ghost use Rattle.pts_rules.specs.Kinds.{let_kind};
ghost use Rattle.pts_rules.specs.Known.{view_of};
ghost use Rattle.pts_points.specs.Points as points;

use pts_kinds::{expr_typing, kind_of_array};
use pts_rules::{Meaning, Scope};
use pts_tree::{Expr, Name};
use pts_types::Kind;

/// The kind of an array's elements.
pub fn kind_at(scope: &Scope, name: &Name) -> Kind
    ensures { result ≡ points.kind_at scope.now name.now }
{
    kind_of_array(scope, name).unwrap_or(Kind::U64)
}

/// The kind of a view.
pub fn view_kind(scope: &Scope, name: &Name) -> Kind
    ensures { result ≡ unwrap_or (view_of scope.now name.now) kinds.U64 }
{
    match scope.meaning(name) {
        Some(Meaning::View(kind)) => *kind,
        _ => Kind::U64,
    }
}

/// The kind of a `let` of an expression.
#[tactic(auto, unfolding(pts_kinds::specs::Shown::typing_of))]
pub fn kind_of_let(scope: &Scope, expr: &Expr) -> Kind
    ensures { result ≡ let_kind scope.now expr.now }
{
    expr_typing(scope, true, expr).own.unwrap_or(Kind::U64)
}
