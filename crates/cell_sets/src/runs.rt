ghost use Rattle.std.specs.Prelude.{◌≡◌};
ghost use Rattle.cell_sets.specs.Runs.{in_run, in_runs};

/// The `count` cells from `first` on.
#[derive(Clone, Copy, Debug, PartialEq, Eq)]
pub struct Run {
    pub first: u32,
    pub count: u32,
}

fn run_holds(run: &Run, c: u32) -> bool
    ensures { result ≡ in_run run.now c }
{
    run.first <= c && c - run.first < run.count
}

// Whether some run has the cell.
pub(crate) fn runs_hold(runs: &[Run], c: u32) -> bool
    ensures { result ≡ in_runs runs.now c }
{
    runs.iter().any(|run| run_holds(run, c))
}
