//! What functions give.

ghost use Rattle.std.specs.Prelude.{◌≡◌};
ghost use Rattle.pts_eval.specs.Sums.{given_by};

use pts_eval::eval_fn;
use pts_program::Program;
use pts_types::Value;

/// What the function of this number gives; None where it throws.
pub fn call_function(program: &Program, function: u32, arguments: &[Value]) -> Option<Value>
    ensures { result ≡ given_by program.now.functions function arguments.now }
{
    if function as usize >= program.functions().len() {
        return Some(Value::U64(0));
    }
    eval_fn(program, function, arguments).ok()
}
