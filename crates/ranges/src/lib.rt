// The fresh state, and the ranges of refusal 21.
#![tactic(auto)]

ghost use Rattle.std.specs.Prelude.{◌≡◌};
ghost use Rattle.history.specs.State.{fresh};
ghost use Rattle.history.specs.Ranges.{standing_in_range, within, state_in_range};

use filter::Filter;
use history::{Log, NO_CYCLE, RUNS, State};
use message::Message;
use sample::Position;
use warnings::CANCEL;

// The state of an engine that has taken no sample.
#[tactic(auto, unfolding(history::specs::State::fresh))]
pub fn fresh_state() -> State
    ensures { result ≡ fresh }
{
    State {
        taken: 0,
        filter: Filter::Empty,
        ignition: false,
        runs: [0; RUNS],
        stoppedcycle: NO_CYCLE,
        brokendowncycle: NO_CYCLE,
        log: Log {
            standing: None,
            started: 0,
            origin: Position { east: 0, north: 0 },
            counted: 0,
            lastcancel: 0,
            events: 0,
        },
    }
}

#[tactic(auto, unfolding(history::specs::Ranges::standing_in_range))]
fn standing_in_range(n: u32, standing: Option<Message>) -> bool
    ensures { result ≡ standing_in_range n standing }
{
    standing.is_none_or(|m| m.is_admitted() && m.kind != CANCEL && m.reference < n)
}

// Whether none of the counts is above n.
#[tactic(auto, unfolding(history::specs::Ranges::within))]
fn within(n: u32, counts: &[u32]) -> bool
    ensures { result ≡ within n counts.now }
{
    counts.iter().all(|count| *count <= n)
}

// Whether refusal 21 lets a state pass. The counts are done with first, so that none is kept over the message's test.
#[tactic(auto, unfolding(history::specs::Ranges::state_in_range, history::specs::Ranges::within))]
pub fn state_in_range(s: State) -> bool
    ensures { result ≡ state_in_range s }
{
    let n = s.taken;
    let l = s.log;
    let counts = [
        s.stoppedcycle.ticks,
        s.brokendowncycle.ticks,
        l.started,
        l.counted,
        l.lastcancel,
        l.events,
    ];
    (n <= 10000000)
        && within(n, &counts)
        && within(n, &s.runs)
        && s.filter.in_range()
        && standing_in_range(n, l.standing)
        && !l.origin.beyond_limit()
}
