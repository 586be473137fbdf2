// The law of runs. The function does nothing: its clause is the law.
ghost use Rattle.bench_run.specs.Laws.{OneRun};

use calendar::moments_are_toggles;

/// A run has one list of rows and one end.
pub fn runs_are_one()
    ensures { OneRun }
{
    moments_are_toggles();
}
