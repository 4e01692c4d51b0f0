//! Calls of algorithms.

ghost use Rattle.std.specs.Prelude.{◌≡◌, IsTrue};
ghost use Rattle.pts_rules.specs.Known as known;
ghost use Rattle.pts_rules.specs.Mistyped as rules;
ghost use Rattle.pts_tree.specs.Spelling.{if_there};
ghost use Rattle.pts_lowering.specs.Fitting.{HasCells, HasNumbers, IsSummable};
ghost use Rattle.pts_lowering.specs.Forms as spec;

use crate::forms::{
    ForEach, LoweredCall, Operation, Reduction, Scan, ScanOrder, Search, Transform,
};
use crate::parts::{
    lower_needed_function, lower_needed_range, lower_operation, lower_optional_cell,
    lower_optional_function, lower_optional_range, lower_optional_val, lower_range,
};
use pts_kinds::sum_kind;
use pts_rules::Scope;
use pts_starts::value_with;
use pts_tree::{Call, CallForm, Op};
use pts_types::{Kind, ScalarOp, Value};

fn lower_for_each(scope: &Scope, call: &Call) -> ForEach
    requires numbered { HasNumbers scope.now }
    requires cells { HasCells scope.now call.now }
    ensures { result ≡ spec.for_each scope.now call.now }
{
    ForEach {
        policy: call.policy,
        range: lower_range(scope, &call.first),
        function: lower_needed_function(scope, &call.function),
    }
}

fn lower_transform(scope: &Scope, call: &Call) -> Transform
    requires numbered { HasNumbers scope.now }
    requires cells { HasCells scope.now call.now }
    ensures { result ≡ spec.transform scope.now call.now }
{
    Transform {
        policy: call.policy,
        first: lower_range(scope, &call.first),
        second: lower_optional_range(scope, &call.second),
        target: lower_needed_range(scope, &call.target),
        function: lower_needed_function(scope, &call.function),
    }
}

fn lower_search(scope: &Scope, call: &Call) -> Search
    requires numbered { HasNumbers scope.now }
    requires cells { HasCells scope.now call.now }
    ensures { result ≡ spec.search scope.now call.now }
{
    Search {
        policy: call.policy,
        range: lower_range(scope, &call.first),
        predicate: lower_needed_function(scope, &call.function),
        into: lower_optional_cell(scope, &call.store),
    }
}

fn kind_of_sum(scope: &Scope, call: &Call) -> Kind
    ensures { result ≡ spec.kind_of_sum scope.now call.now }
{
    sum_kind(scope, call).unwrap_or(Kind::U64)
}

#[tactic(auto, using(crate::proofs::Summing::initial_fits))]
fn lower_initial(scope: &Scope, call: &Call) -> Option<Value>
    requires { IsSummable scope.now call.now }
    ensures { result ≡ spec.initial scope.now call.now }
{
    lower_optional_val(scope, kind_of_sum(scope, call), &call.init)
}

fn needed_value(kind: Kind, value: Option<Value>) -> Value
    ensures { result ≡ spec.needed_value kind value }
{
    match value {
        Some(value) => value,
        None => value_with(kind, 0),
    }
}

fn lower_needed_operation(scope: &Scope, op: &Option<Op>) -> Operation
    requires { HasNumbers scope.now }
    ensures { result ≡ spec.needed_operation scope.now op.now }
{
    match op {
        Some(op) => lower_operation(scope, op),
        None => Operation::Table(ScalarOp::Plus),
    }
}

fn lower_reduction(scope: &Scope, call: &Call) -> Reduction
    requires numbered { HasNumbers scope.now }
    requires cells { HasCells scope.now call.now }
    requires summable { IsSummable scope.now call.now }
    ensures { result ≡ spec.reduction scope.now call.now }
{
    Reduction {
        policy: call.policy,
        first: lower_range(scope, &call.first),
        second: lower_optional_range(scope, &call.second),
        transform: lower_optional_function(scope, &call.function),
        initial: needed_value(kind_of_sum(scope, call), lower_initial(scope, call)),
        operation: lower_needed_operation(scope, &call.op),
        into: lower_optional_cell(scope, &call.store),
    }
}

fn lower_scan(scope: &Scope, order: ScanOrder, call: &Call) -> Scan
    requires numbered { HasNumbers scope.now }
    requires cells { HasCells scope.now call.now }
    requires summable { IsSummable scope.now call.now }
    ensures { result ≡ spec.scan scope.now order call.now }
{
    Scan {
        policy: call.policy,
        order,
        source: lower_range(scope, &call.first),
        transform: lower_optional_function(scope, &call.function),
        initial: lower_initial(scope, call),
        operation: lower_needed_operation(scope, &call.op),
        target: lower_needed_range(scope, &call.target),
    }
}

/// A call whose numbers have 32 bits and whose values have their kinds.
#[tactic(auto, using(crate::proofs::Summing::summable))]
pub fn lower_call(scope: &Scope, call: &Call) -> LoweredCall
    requires numbered { HasNumbers scope.now }
    requires cells { HasCells scope.now call.now }
    requires right { IsTrue (rules.form_right call.now.form scope.now call.now) }
    ensures { result ≡ spec.call_by_form call.now.form scope.now call.now }
{
    match call.form {
        CallForm::ForEach => LoweredCall::ForEach(lower_for_each(scope, call)),
        CallForm::Transform => LoweredCall::Transform(lower_transform(scope, call)),
        CallForm::FindIf => LoweredCall::FindIf(lower_search(scope, call)),
        CallForm::CountIf => LoweredCall::CountIf(lower_search(scope, call)),
        CallForm::Reduce => LoweredCall::Reduce(lower_reduction(scope, call)),
        CallForm::TransformReduce => LoweredCall::Reduce(lower_reduction(scope, call)),
        CallForm::InclusiveScan => LoweredCall::Scan(lower_scan(scope, ScanOrder::Inclusive, call)),
        CallForm::ExclusiveScan => LoweredCall::Scan(lower_scan(scope, ScanOrder::Exclusive, call)),
        CallForm::TransformInclusiveScan => {
            LoweredCall::Scan(lower_scan(scope, ScanOrder::Inclusive, call))
        }
        CallForm::TransformExclusiveScan => {
            LoweredCall::Scan(lower_scan(scope, ScanOrder::Exclusive, call))
        }
    }
}
