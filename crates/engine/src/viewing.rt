// What is looked at to decide, from the state before the sample and the state with it.
ghost use Rattle.std.specs.Prelude.{◌≡◌, ◌-◌, max};
ghost use Rattle.history.specs.State.{quality_from, seen};

use crate::bounded::Bounded;
use crate::deciding::Seen;
use crate::taking::conditions_at;
use history::{MOVING, NO_ECALL, NO_HIGH, NO_LOW, RUNS, STILL, State, View};
use sample::Sample;

// The highest quality of the happenings from tick `j` on, when `n` samples were taken. The last happening of a kind, if any, came at
// the tick before the run without one. 0 where none came, and no Option: qualities are compared and stored as the record's own byte.
#[tactic(auto, unfolding(history::specs::State::quality_from))]
fn quality_from(j: u32, n: u32, r: [u32; RUNS]) -> u8
    ensures { result ≡ quality_from j n r }
{
    if j < n.saturating_sub(r[NO_HIGH]) {
        return 3;
    }
    if j < n.saturating_sub(r[NO_LOW]) {
        return 2;
    }
    if j < n.saturating_sub(r[NO_ECALL]) {
        return 1;
    }
    0
}

// The first tick whose happenings a New of warning 3 counts at tick `i`.
pub(crate) fn counted_from(i: u32, lastcancel: u32) -> u32
    ensures { result ≡ max (i - 150) lastcancel }
{
    i.saturating_sub(150).max(lastcancel)
}

#[tactic(auto, unfolding(history::specs::State::seen))]
pub(crate) fn seen(s: Bounded, t: State, x: Sample) -> Seen
    ensures { result.view ≡ seen s.state t x }
{
    let before = s.state;
    let log = before.log;
    let now = conditions_at(before.taken, t.runs);
    let from = counted_from(before.taken, log.lastcancel);
    Seen {
        view: View {
            tick: before.taken,
            sample: x,
            standing: log.standing,
            started: log.started,
            origin: log.origin,
            events: log.events,
            stationary: t.runs[STILL],
            moving: t.runs[MOVING],
            switchedoff: !t.ignition & before.ignition,
            shortening: now.park | now.idle | now.brake | now.belt,
            expiring: now.expiring,
            stoppedcycle: t.stoppedcycle,
            brokendowncycle: t.brokendowncycle,
            recent: quality_from(from, t.taken, t.runs),
            kept: quality_from(log.counted, t.taken, t.runs),
        },
    }
}
