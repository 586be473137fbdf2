// The law of outcomes. The function does nothing: its clause is the law.
ghost use Rattle.amh_tool.specs.Headline.{OneOutcome};

use bench_run::runs_are_one;
use elab_eval::outcome_is_one;
use py_grammar::programs_are_exact;

/// Words and files have one outcome, and no other.
pub fn outcomes_are_one()
    ensures { OneOutcome }
{
    outcome_is_one();
    programs_are_exact();
    runs_are_one();
}
