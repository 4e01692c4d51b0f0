//! Functions in order, ready to be called.

ghost use Rattle.std.specs.Prelude.{◌≡◌, ◌<◌, ◌≤◌, [], ◌∷◌, ◌++◌, IfOk, List, OnOk, Some, fold, length, map, slice_get};
ghost use Rattle.pts_code.specs.Codes.{Sight, functions_of};
ghost use Rattle.pts_code.specs.Compiling.{Holds, IsCode, IsCompiled};
ghost use Rattle.pts_code.specs.declared.compiling.Spot.{Spot};
ghost use Rattle.pts_code.specs.Functions.{body_scope, environment_of, kinds_of, outcome_of, with_signature};

use crate::code::Code;
use crate::compiling::{Names, compile};
use crate::evaluation::{Frame, eval};
use crate::function::FunctionInfo;
use crate::numbers::numbers_in;
use pts_rules::{Meaning, Scope, Signature};
use pts_tree::Param;
use pts_types::{Kind, NoMemory, Thrown, Value};
use sqlite_items::Items;
use std::alloc::{AllocError, Global};
use std::marker::Model;

/// Functions, each of which calls earlier ones only.
#[derive(Drop)]
pub struct Codes {
    functions: Vec<FunctionInfo>,
    codes: Vec<Code>,
    scope: Scope,
}

impl Model for Codes {
    ghost use Rattle.std.specs.Prelude.{List};
    ghost use Rattle.pts_code.specs.Compiling.{IsCompiled};
    ghost use Rattle.std.specs.Coded.{coded_list};
    ghost use Rattle.pts_code.specs.declared.function.FunctionInfo.{FunctionInfo};
    ghost use Rattle.pts_code.specs.contracts.function.FunctionInfo.{the_row};

    ghost Value = { List FunctionInfo };

    ghost coded = { coded_list the_row.coded };

    ghost view = { λ c. c.functions.items };

    ghost invariant = { λ c. IsCompiled c.functions.items c.codes.items c.scope };
}

pub(crate) fn enter_params(
    alloc: Global,
    scope: &mut Scope,
    params: &[Param],
) -> Result<(), NoMemory>
    ensures { OnOk result (scope.new ≡ body_scope scope.old params.now) }
{
    for param in params {
        scope.enter(alloc, &param.name, Meaning::Value(param.kind))?;
    }
    Ok(())
}

fn param_kinds(alloc: Global, params: &[Param]) -> Result<Items<Kind>, AllocError>
    ensures { IfOk result (λ kinds. kinds ≡ kinds_of params.now) }
{
    let mut kinds = Items::new(alloc);
    for param in params {
        kinds.push(param.kind)?;
    }
    Ok(kinds)
}

pub(crate) fn enter_function(
    alloc: Global,
    scope: &mut Scope,
    function: &FunctionInfo,
) -> Result<(), NoMemory>
    ensures { OnOk result (scope.new ≡ with_signature scope.old function.now) }
{
    let params = param_kinds(alloc, function.params.as_slice())?;
    let signature = Signature {
        params,
        kind: function.kind,
        depth: 0,
        size: 0,
    };
    scope.enter(alloc, &function.name, Meaning::Function(signature))
}

/// Enters functions, the latest first in the scope, for code that may call them.
pub fn enter_functions(
    alloc: Global,
    scope: &mut Scope,
    functions: &[FunctionInfo],
) -> Result<(), NoMemory>
    ensures { OnOk result (scope.new ≡ fold with_signature scope.old functions.now) }
{
    for function in functions {
        enter_function(alloc, scope, function)?;
    }
    Ok(())
}

// The arguments stand in the frame in order. No memory holds a body with more elements than there are numbers.
fn compile_body(alloc: Global, scope: &mut Scope, function: &FunctionInfo) -> Result<Code, NoMemory>
    ensures code { IfOk result (λ code. IsCode (body_scope scope.old function.now.params) [] function.now.kind 0 function.now.body code) }
    ensures same { OnOk result (scope.new ≡ scope.old) }
{
    if numbers_in(&function.body, true) == usize::MAX {
        return Err(NoMemory);
    }
    let len = scope.len();
    enter_params(alloc, scope, function.params.as_slice())?;
    let names = Names {
        scope: &*scope,
        spots: &[],
    };
    let code = compile(alloc, &names, function.kind, 0, &function.body)?;
    scope.leave(len);
    Ok(code)
}

fn push_both(
    functions: &mut Vec<FunctionInfo>,
    codes: &mut Vec<Code>,
    function: FunctionInfo,
    code: Code,
) -> Result<(), AllocError>
    ensures functions { OnOk result (functions.new.items ≡ functions.old.items ++ function ∷ []) }
    ensures codes { OnOk result (codes.new.items ≡ codes.old.items ++ code ∷ []) }
{
    functions.push(function)?;
    codes.push(code)?;
    Ok(())
}

impl Codes {
    /// No functions.
    pub fn new(alloc: Global) -> Codes
        ensures { result ≡ [] }
    {
        Codes {
            functions: Vec::new(alloc),
            codes: Vec::new(alloc),
            scope: Scope::new(alloc),
        }
    }

    /// The functions in order.
    pub fn functions(&self) -> &[FunctionInfo]
        ensures { result.now ≡ self.now }
    {
        self.functions.as_slice()
    }

    /// What computes the functions, by their numbers: wherever code may call these, each function stands at its number.
    pub fn codes(&self) -> &[Code]
        ensures { (sight : Sight) (spots : List Spot) → sight.functions ≡ functions_of result.now → Holds sight spots (environment_of self.now) }
    {
        self.codes.as_slice()
    }

    /// The function of a number, from 0.
    pub fn function(&self, number: usize) -> &FunctionInfo
        requires { number < length self.now }
        ensures is { Some result.now ≡ slice_get self.now number }
        ensures few { length result.now.params ≤ 8 }
    {
        &self.functions[number]
    }

    /// One function more, behind those that it may call. It has at most eight parameters.
    pub fn push(self, alloc: Global, function: FunctionInfo) -> Result<Codes, NoMemory>
        requires { length function.params ≤ 8 }
        ensures { IfOk result (λ codes. codes ≡ self ++ function ∷ []) }
    {
        let Codes {
            mut functions,
            mut codes,
            mut scope,
        } = self;
        let code = compile_body(alloc, &mut scope, &function)?;
        enter_function(alloc, &mut scope, &function)?;
        let Ok(()) = push_both(&mut functions, &mut codes, function, code) else {
            return Err(NoMemory);
        };
        Ok(Codes {
            functions,
            codes,
            scope,
        })
    }

    /// What the function of a number, from 0, gives for these arguments: its value, or what it throws first. It takes no
    /// memory.
    pub fn call(&self, function: usize, arguments: &[Value]) -> Result<Value, Thrown>
        requires { function < length self.now }
        ensures { result ≡ outcome_of self.now function arguments.now }
    {
        let codes = self.codes.as_slice();
        let frame = Frame {
            codes: &codes[..function],
            values: arguments,
            notes: &[],
        };
        eval(&frame, &codes[function])
    }
}
