// What the program prints, as it judges it. The functions do nothing: their clauses are the laws.
ghost use Rattle.hd_run.specs.PrintedRuns.{PrintedRunsAreJudgedRuns, WholeRunsAreJudgedRuns};

use hd_io::{Sink, Source};

/// The full text of a whole run, as `solo` and `run` write it, is judged to be that of a run, or
/// memory runs out: `hd_audit::audit` never says of it that it is none.
pub fn whole_runs_are_judged_runs()
    ensures { WholeRunsAreJudgedRuns }
{}

/// The same of two calls of `top`: what the first printed with `--slots` on status 0 is given to
/// the second after its script and a dividing line, over the same limits, and the status of that
/// one is 0 or 6.
pub fn printed_runs_are_judged_runs<S: Source, K: Sink>()
    ensures { PrintedRunsAreJudgedRuns S.seen K.seen }
{}
