// One step of the state: the sample is taken, the rules decide, and the log keeps what they give.
ghost use Rattle.std.specs.Prelude.{◌≡◌};
ghost use Rattle.history.specs.Rules.{unit_settings};
ghost use Rattle.history.specs.State.{step};

use crate::bounded::Bounded;
use crate::logging::logged_notice;
use crate::taking::with_sample;
use crate::viewing::seen;
use history::{State, Stepped};
use sample::Sample;

#[tactic(auto, using(crate::proofs::StepFits::events_kept, crate::proofs::StepFits::events_more), unfolding(history::specs::State::step, history::specs::State::with_log))]
pub(crate) fn stepped(s: Bounded, x: Sample) -> Stepped
    ensures { result ≡ step unit_settings s.state x }
{
    let taken = with_sample(s, x);
    let decision = seen(s, taken, x).decide();
    let between = logged_notice(taken.log, decision.cancel);
    let log = logged_notice(between, decision.report);
    Stepped {
        state: State { log, ..taken },
        decision,
    }
}
