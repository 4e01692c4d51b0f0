//! `find_if` and `count_if`: a predicate that is asked at one position after the other.

ghost use Rattle.std.specs.Prelude.{◌≡◌, ◌<◌, ◌≤◌, true, Some, length, slice_get};
ghost use Rattle.pts_eval.specs.Maps.{truths_in, PermitsCount, PermitsPlace};
ghost use Rattle.pts_code.specs.Outcomes as spec;
ghost use Rattle.pts_eval.specs.Cells.{start_store};
ghost use Rattle.pts_store.specs.Laws.{SameShape};
ghost use Rattle.pts_maps.specs.Answers.{end_of};
ghost use Rattle.pts_maps.specs.Searches.{added, AreCounted, IsCount, IsPlace, IsQuiet};

use crate::answers::Answer;
use crate::run::Run;
use pts_boards::Gate;
use pts_elements::{call_function, count_cells, read_element};
use pts_lowering::Search;
use pts_store::View;
use pts_types::Value;

// A value of the predicate.
fn is_true(value: Value) -> bool
    ensures { result ≡ spec.is_true value }
{
    matches!(value, Value::Bool(true))
}

// What a position adds to a count.
fn one_if(truth: bool) -> u64
    ensures value { result ≡ added truth }
    ensures few { result ≤ 1 }
{
    u64::from(truth)
}

impl<V: View, G: Gate> Run<'_, V, G> {
    // Whether the predicate holds at a position; None where it throws.
    #[tactic(auto, using(crate::proofs::Asked::within_range, crate::proofs::Asked::truth_asked))]
    fn truth(&self, call: &Search, at: u32) -> Option<bool>
        requires { at < length (truths_in self.now.program.now.functions (V.stands self.now.view.now) call.now) }
        ensures { Some result ≡ slice_get (truths_in self.now.program.now.functions (V.stands self.now.view.now) call.now) at }
    {
        let element = read_element(self.view, call.range, at);
        match call_function(self.program, call.predicate, &[element]) {
            Some(value) => Some(is_true(value)),
            None => None,
        }
    }

    // The answer of a search, if it is found from `low` on and before `high`.
    #[tactic(auto, using(crate::proofs::Asked::quiet_more))]
    fn find_in_chunk(&self, call: &Search, low: u32, high: u32) -> Option<Answer>
        requires order { low ≤ high }
        requires within { high ≤ length (truths_in self.now.program.now.functions (V.stands self.now.view.now) call.now) }
        requires far { IsQuiet (truths_in self.now.program.now.functions (V.stands self.now.view.now) call.now) low }
        ensures { IsPlace (truths_in self.now.program.now.functions (V.stands self.now.view.now) call.now) high result }
    {
        for at in low..high {
            match self.truth(call, at) {
                None => return Some(Answer::Terminated),
                Some(true) => return Some(Answer::Index(Some(u64::from(at)))),
                Some(false) => {}
            }
        }
        None
    }

    // The first position at which the predicate holds or throws.
    #[tactic(auto, using(crate::proofs::Asked::quiet_at_start, crate::proofs::Asked::size_asked))]
    pub fn find(&self, call: &Search) -> Answer
        requires { SameShape (start_store self.now.program.now) (V.stands self.now.view.now) }
        ensures { PermitsPlace true (truths_in self.now.program.now.functions (V.stands self.now.view.now) call.now) (end_of result) }
    {
        let count = count_cells(self.program, call.range);
        let mut low = 0;
        let mut chunk = 0;
        while low < count {
            self.pass(chunk);
            let high = low + self.pool.chunk.min(count - low);
            if let Some(answer) = self.find_in_chunk(call, low, high) {
                return answer;
            }
            low = high;
            chunk += 1;
        }
        Answer::Index(None)
    }

    // How often the predicate holds before `high`, where it holds `so_far` often before `low`; None where it throws.
    #[tactic(auto, using(crate::proofs::Asked::counted_next))]
    fn count_in_chunk(&self, call: &Search, low: u32, high: u32, so_far: u64) -> Option<u64>
        requires order { low ≤ high }
        requires within { high ≤ length (truths_in self.now.program.now.functions (V.stands self.now.view.now) call.now) }
        requires counted { AreCounted (truths_in self.now.program.now.functions (V.stands self.now.view.now) call.now) low so_far }
        ensures { IsCount (truths_in self.now.program.now.functions (V.stands self.now.view.now) call.now) high result }
    {
        let mut matches = so_far;
        for at in low..high {
            let Some(truth) = self.truth(call, at) else {
                return None;
            };
            matches += one_if(truth);
        }
        Some(matches)
    }

    // How often the predicate holds, unless it throws.
    #[tactic(auto, using(crate::proofs::Asked::counted_at_start, crate::proofs::Asked::all_counted, crate::proofs::Asked::size_asked))]
    pub fn count(&self, call: &Search) -> Answer
        requires { SameShape (start_store self.now.program.now) (V.stands self.now.view.now) }
        ensures { PermitsCount (truths_in self.now.program.now.functions (V.stands self.now.view.now) call.now) (end_of result) }
    {
        let count = count_cells(self.program, call.range);
        let mut low = 0;
        let mut chunk = 0;
        let mut matches = 0;
        while low < count {
            self.pass(chunk);
            let high = low + self.pool.chunk.min(count - low);
            let Some(more) = self.count_in_chunk(call, low, high, matches) else {
                return Answer::Terminated;
            };
            matches = more;
            low = high;
            chunk += 1;
        }
        Answer::Count(matches)
    }
}
