//! Reading calls of algorithms.

ghost use Rattle.std.specs.Prelude.{◌≡◌};
ghost use Rattle.pts_parse.specs.Reading.{Gives};
ghost use Rattle.pts_parse.specs.CallReading as spec;

use crate::reader::{Read, Stop, ahead, expect, name, past, sees};
use crate::sums::{cell, range, val};
use pts_tree::{Call, CallForm, Cell, Mark, Name, Op, Range, Sign, SignKind, Val};
use pts_types::{Policy, ScalarOp};
use std::alloc::Global;

#[tactic(auto, unfolding(crate::specs::CallReading::policy))]
pub fn policy(signs: &[Sign]) -> Read<Policy>
    ensures { Gives (λ x. (x.0, x.1.now)) result (spec.policy signs.now) }
{
    let policy = match ahead(signs) {
        SignKind::Mark(Mark::Seq) => Policy::Seq,
        SignKind::Mark(Mark::Par) => Policy::Par,
        SignKind::Mark(Mark::ParUnseq) => Policy::ParUnseq,
        SignKind::Mark(Mark::Unseq) => Policy::Unseq,
        SignKind::Mark(Mark::Vector) => Policy::Vector,
        _ => return Err(Stop::Unexpected(signs.len())),
    };
    Ok((policy, past(signs)))
}

#[tactic(auto, unfolding(crate::specs::Reading::and_then, crate::specs::CallReading::op))]
pub fn op(alloc: Global, signs: &[Sign]) -> Read<Op>
    ensures { Gives (λ x. (x.0, x.1.now)) result (spec.op signs.now) }
{
    let op = match ahead(signs) {
        SignKind::Mark(Mark::Plus) => ScalarOp::Plus,
        SignKind::Mark(Mark::Multiplies) => ScalarOp::Multiplies,
        SignKind::Mark(Mark::BitAnd) => ScalarOp::BitAnd,
        SignKind::Mark(Mark::BitOr) => ScalarOp::BitOr,
        SignKind::Mark(Mark::BitXor) => ScalarOp::BitXor,
        SignKind::Mark(Mark::Min) => ScalarOp::Min,
        SignKind::Mark(Mark::Max) => ScalarOp::Max,
        SignKind::Name => {
            let (text, rest) = name(alloc, signs)?;
            return Ok((Op::Name(text), rest));
        }
        _ => return Err(Stop::Unexpected(signs.len())),
    };
    Ok((Op::Table(op), past(signs)))
}

#[tactic(auto, unfolding(crate::specs::Reading::and_then, crate::specs::CallReading::second))]
fn second(alloc: Global, room: usize, signs: &[Sign]) -> Read<Option<Range>>
    ensures { Gives (λ x. (x.0, x.1.now)) result (spec.second room signs.now) }
{
    if sees(Mark::Comma, signs) {
        let (range, rest) = range(alloc, room, past(signs))?;
        return Ok((Some(range), rest));
    }
    Ok((None, signs))
}

#[tactic(auto, unfolding(crate::specs::Reading::and_then, crate::specs::CallReading::target))]
fn target(alloc: Global, room: usize, signs: &[Sign]) -> Read<Range>
    ensures { Gives (λ x. (x.0, x.1.now)) result (spec.target room signs.now) }
{
    let rest = expect(Mark::Arrow, signs)?;
    range(alloc, room, rest)
}

#[tactic(auto, unfolding(crate::specs::Reading::and_then, crate::specs::CallReading::init))]
fn init(alloc: Global, signs: &[Sign]) -> Read<Val>
    ensures { Gives (λ x. (x.0, x.1.now)) result (spec.init signs.now) }
{
    let rest = expect(Mark::Init, signs)?;
    val(alloc, rest)
}

#[tactic(auto, unfolding(crate::specs::Reading::and_then, crate::specs::CallReading::optional_init))]
fn optional_init(alloc: Global, signs: &[Sign]) -> Read<Option<Val>>
    ensures { Gives (λ x. (x.0, x.1.now)) result (spec.optional_init signs.now) }
{
    if sees(Mark::Init, signs) {
        let (value, rest) = init(alloc, signs)?;
        return Ok((Some(value), rest));
    }
    Ok((None, signs))
}

#[tactic(auto, unfolding(crate::specs::Reading::and_then, crate::specs::CallReading::store))]
fn store(alloc: Global, room: usize, signs: &[Sign]) -> Read<Option<Cell>>
    ensures { Gives (λ x. (x.0, x.1.now)) result (spec.store room signs.now) }
{
    if sees(Mark::Into, signs) {
        let (cell, rest) = cell(alloc, room, past(signs))?;
        return Ok((Some(cell), rest));
    }
    Ok((None, signs))
}

#[tactic(auto, unfolding(crate::specs::Reading::and_then, crate::specs::CallReading::head))]
fn head(alloc: Global, room: usize, signs: &[Sign]) -> Read<(Policy, Range)>
    ensures { Gives (λ x. (x.0, x.1.now)) result (spec.head room signs.now) }
{
    let (policy, rest) = policy(signs)?;
    let (range, rest) = range(alloc, room, rest)?;
    Ok(((policy, range), rest))
}

#[tactic(auto, unfolding(crate::specs::Reading::and_then, crate::specs::CallReading::start))]
fn start(alloc: Global, signs: &[Sign]) -> Read<(Val, Op)>
    ensures { Gives (λ x. (x.0, x.1.now)) result (spec.start signs.now) }
{
    let (init, rest) = init(alloc, signs)?;
    let (op, rest) = op(alloc, rest)?;
    Ok(((init, op), rest))
}

#[tactic(auto, unfolding(crate::specs::Reading::and_then, crate::specs::CallReading::sources))]
fn sources(alloc: Global, room: usize, signs: &[Sign]) -> Read<((Policy, Range), Option<Range>)>
    ensures { Gives (λ x. (x.0, x.1.now)) result (spec.sources room signs.now) }
{
    let (head, rest) = head(alloc, room, signs)?;
    let (second, rest) = second(alloc, room, rest)?;
    Ok(((head, second), rest))
}

#[tactic(auto, unfolding(crate::specs::Reading::and_then, crate::specs::CallReading::named_end))]
fn named_end(alloc: Global, signs: &[Sign]) -> Read<Name>
    ensures { Gives (λ x. (x.0, x.1.now)) result (spec.named_end signs.now) }
{
    let (function, rest) = name(alloc, signs)?;
    let rest = expect(Mark::Semicolon, rest)?;
    Ok((function, rest))
}

#[tactic(auto, unfolding(crate::specs::Reading::and_then, crate::specs::CallReading::stored_end))]
fn stored_end(alloc: Global, room: usize, signs: &[Sign]) -> Read<Option<Cell>>
    ensures { Gives (λ x. (x.0, x.1.now)) result (spec.stored_end room signs.now) }
{
    let (store, rest) = store(alloc, room, signs)?;
    let rest = expect(Mark::Semicolon, rest)?;
    Ok((store, rest))
}

#[tactic(auto, unfolding(crate::specs::Reading::and_then, crate::specs::CallReading::for_each))]
fn for_each(alloc: Global, room: usize, signs: &[Sign]) -> Read<Call>
    ensures { Gives (λ x. (x.0, x.1.now)) result (spec.for_each room signs.now) }
{
    let ((policy, first), rest) = head(alloc, room, signs)?;
    let (function, rest) = named_end(alloc, rest)?;
    let call = Call {
        form: CallForm::ForEach,
        policy,
        first,
        second: None,
        target: None,
        init: None,
        op: None,
        function: Some(function),
        store: None,
    };
    Ok((call, rest))
}

#[tactic(auto, unfolding(crate::specs::Reading::and_then, crate::specs::CallReading::transform))]
fn transform(alloc: Global, room: usize, signs: &[Sign]) -> Read<Call>
    ensures { Gives (λ x. (x.0, x.1.now)) result (spec.transform room signs.now) }
{
    let (((policy, first), second), rest) = sources(alloc, room, signs)?;
    let (target, rest) = target(alloc, room, rest)?;
    let (function, rest) = named_end(alloc, rest)?;
    let call = Call {
        form: CallForm::Transform,
        policy,
        first,
        second,
        target: Some(target),
        init: None,
        op: None,
        function: Some(function),
        store: None,
    };
    Ok((call, rest))
}

#[tactic(auto, unfolding(crate::specs::Reading::and_then, crate::specs::CallReading::search))]
fn search(alloc: Global, form: CallForm, room: usize, signs: &[Sign]) -> Read<Call>
    ensures { Gives (λ x. (x.0, x.1.now)) result (spec.search form room signs.now) }
{
    let ((policy, first), rest) = head(alloc, room, signs)?;
    let (function, rest) = name(alloc, rest)?;
    let (store, rest) = stored_end(alloc, room, rest)?;
    let call = Call {
        form,
        policy,
        first,
        second: None,
        target: None,
        init: None,
        op: None,
        function: Some(function),
        store,
    };
    Ok((call, rest))
}

#[tactic(auto, unfolding(crate::specs::Reading::and_then, crate::specs::CallReading::reduce))]
fn reduce(alloc: Global, room: usize, signs: &[Sign]) -> Read<Call>
    ensures { Gives (λ x. (x.0, x.1.now)) result (spec.reduce room signs.now) }
{
    let ((policy, first), rest) = head(alloc, room, signs)?;
    let ((init, op), rest) = start(alloc, rest)?;
    let (store, rest) = stored_end(alloc, room, rest)?;
    let call = Call {
        form: CallForm::Reduce,
        policy,
        first,
        second: None,
        target: None,
        init: Some(init),
        op: Some(op),
        function: None,
        store,
    };
    Ok((call, rest))
}

#[tactic(auto, unfolding(crate::specs::Reading::and_then, crate::specs::CallReading::transform_reduce))]
fn transform_reduce(alloc: Global, room: usize, signs: &[Sign]) -> Read<Call>
    ensures { Gives (λ x. (x.0, x.1.now)) result (spec.transform_reduce room signs.now) }
{
    let (((policy, first), second), rest) = sources(alloc, room, signs)?;
    let ((init, op), rest) = start(alloc, rest)?;
    let (function, rest) = name(alloc, rest)?;
    let (store, rest) = stored_end(alloc, room, rest)?;
    let call = Call {
        form: CallForm::TransformReduce,
        policy,
        first,
        second,
        target: None,
        init: Some(init),
        op: Some(op),
        function: Some(function),
        store,
    };
    Ok((call, rest))
}

#[tactic(auto, unfolding(crate::specs::Reading::and_then))]
fn scan_init(alloc: Global, form: CallForm, signs: &[Sign]) -> Read<Option<Val>>
    ensures { Gives (λ x. (x.0, x.1.now)) result (spec.scan_init form signs.now) }
{
    match form {
        CallForm::InclusiveScan | CallForm::TransformInclusiveScan => optional_init(alloc, signs),
        _ => {
            let (value, rest) = init(alloc, signs)?;
            Ok((Some(value), rest))
        }
    }
}

#[tactic(auto, unfolding(crate::specs::Reading::and_then))]
fn scan_function(alloc: Global, form: CallForm, signs: &[Sign]) -> Read<Option<Name>>
    ensures { Gives (λ x. (x.0, x.1.now)) result (spec.scan_function form signs.now) }
{
    match form {
        CallForm::TransformInclusiveScan | CallForm::TransformExclusiveScan => {
            let (function, rest) = name(alloc, signs)?;
            Ok((Some(function), rest))
        }
        _ => Ok((None, signs)),
    }
}

#[tactic(auto, unfolding(crate::specs::Reading::and_then, crate::specs::CallReading::scan_ranges))]
fn scan_ranges(alloc: Global, room: usize, signs: &[Sign]) -> Read<((Policy, Range), Range)>
    ensures { Gives (λ x. (x.0, x.1.now)) result (spec.scan_ranges room signs.now) }
{
    let (head, rest) = head(alloc, room, signs)?;
    let (target, rest) = target(alloc, room, rest)?;
    Ok(((head, target), rest))
}

#[tactic(auto, unfolding(crate::specs::Reading::and_then, crate::specs::CallReading::scan_end))]
fn scan_end(alloc: Global, form: CallForm, signs: &[Sign]) -> Read<(Op, Option<Name>)>
    ensures { Gives (λ x. (x.0, x.1.now)) result (spec.scan_end form signs.now) }
{
    let (op, rest) = op(alloc, signs)?;
    let (function, rest) = scan_function(alloc, form, rest)?;
    let rest = expect(Mark::Semicolon, rest)?;
    Ok(((op, function), rest))
}

#[tactic(auto, unfolding(crate::specs::Reading::and_then, crate::specs::CallReading::scan))]
fn scan(alloc: Global, form: CallForm, room: usize, signs: &[Sign]) -> Read<Call>
    ensures { Gives (λ x. (x.0, x.1.now)) result (spec.scan form room signs.now) }
{
    let (((policy, first), target), rest) = scan_ranges(alloc, room, signs)?;
    let (init, rest) = scan_init(alloc, form, rest)?;
    let ((op, function), rest) = scan_end(alloc, form, rest)?;
    let call = Call {
        form,
        policy,
        first,
        second: None,
        target: Some(target),
        init,
        op: Some(op),
        function,
        store: None,
    };
    Ok((call, rest))
}

#[tactic(auto, unfolding(crate::specs::CallReading::call))]
pub fn call(alloc: Global, room: usize, signs: &[Sign]) -> Read<Call>
    ensures { Gives (λ x. (x.0, x.1.now)) result (spec.call room signs.now) }
{
    let rest = past(signs);
    match ahead(signs) {
        SignKind::Mark(Mark::ForEach) => for_each(alloc, room, rest),
        SignKind::Mark(Mark::Transform) => transform(alloc, room, rest),
        SignKind::Mark(Mark::FindIf) => search(alloc, CallForm::FindIf, room, rest),
        SignKind::Mark(Mark::CountIf) => search(alloc, CallForm::CountIf, room, rest),
        SignKind::Mark(Mark::Reduce) => reduce(alloc, room, rest),
        SignKind::Mark(Mark::TransformReduce) => transform_reduce(alloc, room, rest),
        SignKind::Mark(Mark::InclusiveScan) => scan(alloc, CallForm::InclusiveScan, room, rest),
        SignKind::Mark(Mark::ExclusiveScan) => scan(alloc, CallForm::ExclusiveScan, room, rest),
        SignKind::Mark(Mark::TransformInclusiveScan) => scan(
            alloc,
            CallForm::TransformInclusiveScan,
            room,
            rest,
        ),
        SignKind::Mark(Mark::TransformExclusiveScan) => scan(
            alloc,
            CallForm::TransformExclusiveScan,
            room,
            rest,
        ),
        _ => Err(Stop::Unexpected(signs.len())),
    }
}
