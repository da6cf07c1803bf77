//! Runs of calls on a family.
ghost use Rattle.std.specs.Prelude.{◌≡◌, [], take};
ghost use Rattle.family.specs.Running.{events, Ran, Stopped};
ghost use Rattle.family.specs.Runs.{Lived, draft};
ghost use Rattle.family.specs.Standing.{stage_of, measure_of, tables_of};

use crate::call::{Answer, Call};
use crate::family::Family;
use crate::staged::Draft;
use plane::Measure;

impl<M: Measure> Family<M> {
    // A fresh draft.
    pub fn fresh(measure: M) -> Family<M>
        ensures measures { measure_of result ≡ measure }
        ensures lived { Lived (M.heights measure) [] (stage_of result) (tables_of result) }
    {
        Family::Open(Draft::new(measure))
    }

    // Performs the longest part of the calls from the front that draft and face allow and the buffer has room for, and says how many
    // these are. Their answers go into the first places of the buffer, the caller's, since there is no heap; later places are left alone.
    pub fn run(self, calls: &[Call], answers: &mut [Answer]) -> (Family<M>, usize)
        ensures { Ran M.heights self calls.now answers.old answers.new result.0 result.1 }
    {
        let mut family = self;
        let limit = calls.len().min(answers.len());
        for (n, &call) in calls[..limit].iter().enumerate() {
            let (next, answer) = family.perform(call);
            family = next;
            let Some(answer) = answer else {
                return (family, n);
            };
            // by index: of a slice under zip(iter_mut()) a proof keeps no values
            answers[n] = answer;
        }
        (family, limit)
    }

    // Makes a fresh draft with a measure and runs any list of calls on it.
    pub fn run_fresh(measure: M, calls: &[Call], answers: &mut [Answer]) -> (Family<M>, usize)
        ensures lived { Lived (M.heights measure) (events (take result.1 calls.now) (take result.1 answers.new))
            (stage_of result.0) (tables_of result.0) }
        ensures stopped { Stopped calls.now answers.old answers.new (stage_of result.0) result.1 }
        ensures measures { measure_of result.0 ≡ measure }
    {
        Family::fresh(measure).run(calls, answers)
    }
}
