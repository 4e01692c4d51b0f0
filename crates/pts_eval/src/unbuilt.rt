//! The first statement whose form is not built.

ghost use Rattle.std.specs.Prelude.{◌≡◌};
ghost use Rattle.pts_eval.specs.Built as spec;

use pts_program::{Program, StatementInfo};

/// The item of the first statement that is not built; None where all of them are. All are but task blocks.
pub fn later(program: &Program) -> Option<u32>
    ensures { result ≡ spec.first_later program.now }
{
    for statement in program.statements() {
        if is_later(program, *statement) {
            return Some(item_of(program, *statement));
        }
    }
    None
}

fn is_later(program: &Program, statement: StatementInfo) -> bool
    ensures { result ≡ spec.is_later program.now statement }
{
    match statement {
        StatementInfo::Print(_) => false,
        StatementInfo::Block(_) => true,
        StatementInfo::Call(call) => program.lowered_calls().get(call as usize).is_none(),
    }
}

fn item_of(program: &Program, statement: StatementInfo) -> u32
    ensures { result ≡ spec.item_of program.now statement }
{
    match statement {
        StatementInfo::Call(call) => match program.calls().get(call as usize) {
            Some(info) => info.item,
            None => 0,
        },
        StatementInfo::Block(block) => match program.blocks().get(block as usize) {
            Some(info) => info.item,
            None => 0,
        },
        StatementInfo::Print(_) => 0,
    }
}
