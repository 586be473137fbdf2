//! Private names, as Python's compiler rewrites them: within a class `C`, a name such as `__x` is `_C__x`.
//!
//! What becomes of a name is `mangled_name` of specs/Names.antt, and of a program `mangled_program` of specs/Statements.antt. A
//! part that stands outside of all classes and has no statements in it is shared.
#![tactic(auto)]

ghost use Rattle.std.specs.Prelude.{◌≡◌, IfOk};
ghost use Rattle.py_tree.specs.Programs.{program_of};
ghost use Rattle.private_names.specs.Statements.{mangled_program};

mod class;
mod expressions;
mod laws;
mod parts;
mod statements;

use amh_host::NoMemory;
use class::Class;
pub use laws::names_are_private;
use py_tree::Program;
use std::alloc::Global;

/// The program with its private names rewritten, unless memory runs out.
pub fn mangled(alloc: Global, program: &Program) -> Result<Program, NoMemory>
    ensures { IfOk result (λ made. program_of made ≡ mangled_program (program_of program.now)) }
{
    let body = Class::none(alloc).block(&program.body)?;
    Ok(Program { body })
}
