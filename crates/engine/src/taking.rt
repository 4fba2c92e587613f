// The state with one more sample, before anything is given at its tick.
ghost use Rattle.std.specs.Prelude.{◌≡◌, ◌≤◌};
ghost use Rattle.history.specs.Rules.{rank, standing_rank, unresponsive, ends_without_message, lasting};
ghost use Rattle.history.specs.History.{is_still, precondition};
ghost use Rattle.history.specs.Runs.{facts_of, runs_after};
ghost use Rattle.history.specs.State.{missing_with, switched_off, conditions_at, cycle_after, goes_on, with_sample};

use crate::bounded::Bounded;
use filter::Filter;
use history::{
    BELT_OFF, BONNET, BOOT, BRAKE, Conditions, Cycle, DOOR, IDLE, IGNITION_OFF, Log, MISSING,
    NO_CYCLE, PARK, RUNS, State,
};
use message::Message;
use sample::Sample;
use warnings::{BROKEN_DOWN, STOPPED, UNRESPONSIVE_DRIVER};

// The gear codes of a sample that conditions a and b ask for.
const GEAR_PARK: u8 = 1;

const GEAR_IDLE: u8 = 2;

// Which of the facts whose runs are kept are true of the sample, each at the place of its run. Here and where a cycle or a stretch goes
// on, `still` stands beside the sample, for the rules' definitions take the two apart: still is of the samples before it too.
#[tactic(auto, unfolding(history::specs::Runs::facts, history::specs::Runs::facts_of))]
fn facts_of(still: bool, x: Sample) -> [bool; RUNS]
    ensures { result ≡ facts_of still x }
{
    let on = x.switches_on();
    let now = x.happenings_now();
    [
        still,
        !still,
        x.gear == GEAR_PARK,
        x.gear == GEAR_IDLE,
        on.brake,
        !on.belt,
        !on.ignition,
        on.door,
        on.boot,
        on.bonnet,
        !now.ecall,
        !(now.low | now.pedestrian),
        !now.high,
        !sample::has_reading(x.speed),
    ]
}

// A run whose fact is true goes on by a tick, and any other ends. The facts are taken by number: over a `zip` of runs and facts the
// check knew no element of the runs, so that the proof did not close.
fn runs_after(facts: [bool; RUNS], s: Bounded) -> [u32; RUNS]
    ensures { result ≡ runs_after facts s.state.runs }
{
    let mut runs = s.state.runs;
    for (i, run) in runs.iter_mut().enumerate() {
        *run = if facts[i] { *run + 1 } else { 0 };
    }
    runs
}

fn switched_off(i: u32, ticks: u32) -> bool
    ensures { result ≡ switched_off i ticks }
{
    (30 < ticks) & (ticks <= i)
}

#[tactic(auto, unfolding(history::specs::State::conditions_at))]
pub(crate) fn conditions_at(i: u32, r: [u32; RUNS]) -> Conditions
    ensures { result ≡ conditions_at i r }
{
    Conditions {
        park: 30 < r[PARK],
        idle: 30 < r[IDLE],
        brake: 30 < r[BRAKE],
        belt: switched_off(i, r[BELT_OFF]),
        expiring: switched_off(i, r[IGNITION_OFF])
            | (30 < r[DOOR])
            | (30 < r[BOOT])
            | (30 < r[BONNET]),
    }
}

#[tactic(auto, unfolding(history::specs::State::cycle_after))]
fn cycle_after(goes_on: bool, now: Conditions, c: Cycle) -> Cycle
    requires { c.ticks ≤ 10000000 }
    ensures { result ≡ cycle_after goes_on now c }
{
    if !goes_on {
        return NO_CYCLE;
    }
    Cycle {
        ticks: c.ticks + 1,
        marks: Conditions {
            park: now.park | c.marks.park,
            idle: now.idle | c.marks.idle,
            brake: now.brake | c.marks.brake,
            belt: now.belt | c.marks.belt,
            expiring: now.expiring | c.marks.expiring,
        },
    }
}

#[tactic(auto, unfolding(history::specs::Rules::rank))]
pub(crate) fn rank(warning: u8) -> u8
    ensures { result ≡ rank warning }
{
    warnings::row_of(warning).rank
}

// 0 where nothing stands, and no Option: 0 is below every warning's rank, so that one comparison answers.
#[tactic(auto, unfolding(history::specs::Rules::standing_rank))]
pub(crate) fn standing_rank(standing: Option<Message>) -> u8
    ensures { result ≡ standing_rank standing }
{
    standing.map_or(0, |m| rank(m.warning))
}

// How many readings in a row are missing, with a sample of this speed.
pub(crate) fn missing_with(speed: u16, missing: u32) -> u32
    requires { missing ≤ 10000000 }
    ensures { result ≡ missing_with speed missing }
{
    if sample::has_reading(speed) {
        0
    } else {
        missing + 1
    }
}

// Whether the vehicle is still, by the filter with the sample and by how many readings in a row are missing with it.
#[tactic(auto, unfolding(history::specs::History::is_still))]
pub(crate) fn is_still(f: Filter, missing: u32) -> bool
    ensures { result ≡ is_still f missing }
{
    (missing <= 5) & f.at_most_8()
}

// Whether the sample's switches are as the cycle of the warning needs them.
#[tactic(auto, unfolding(history::specs::History::precondition))]
fn precondition(warning: u8, x: Sample) -> bool
    ensures { result ≡ precondition warning x }
{
    let on = x.switches_on();
    match warning {
        STOPPED => on.hazard & !on.breakdown,
        BROKEN_DOWN => on.hazard & on.breakdown,
        _ => false,
    }
}

// Whether the cycle of the warning goes on, by still and by the rank of what stands.
fn goes_on(warning: u8, still: bool, x: Sample, standing: u8) -> bool
    ensures { result ≡ goes_on warning still x standing }
{
    still & precondition(warning, x) & (standing < rank(warning))
}

// Whether the driver is unresponsive: a risk mitigation function is active, and the vehicle is not still.
#[tactic(auto, unfolding(history::specs::Rules::unresponsive))]
pub(crate) fn is_unresponsive(still: bool, x: Sample) -> bool
    ensures { result ≡ unresponsive still x }
{
    x.happenings_now().mitigation & !still
}

// Whether a warning ends without a Cancel.
pub(crate) fn ends_without_message(warning: u8) -> bool
    ensures { result ≡ ends_without_message warning }
{
    warning == UNRESPONSIVE_DRIVER
}

// What stood before a sample, but for a warning that ends without a message and does not trigger with it.
#[tactic(auto, unfolding(history::specs::Rules::lasting))]
fn lasting(triggered: bool, standing: Option<Message>) -> Option<Message>
    ensures { result ≡ lasting triggered standing }
{
    standing.filter(|m| triggered | !ends_without_message(m.warning))
}

#[tactic(auto, unfolding(history::specs::State::with_sample, history::specs::State::log_lasting))]
pub(crate) fn with_sample(s: Bounded, x: Sample) -> State
    ensures { result ≡ with_sample s.state x }
{
    let before = s.state;
    let filter = before.filter.next(x.speed);
    let still = is_still(filter, missing_with(x.speed, before.runs[MISSING]));
    let runs = runs_after(facts_of(still, x), s);
    let now = conditions_at(before.taken, runs);
    let standing = standing_rank(before.log.standing);
    let log = Log {
        standing: lasting(is_unresponsive(still, x), before.log.standing),
        ..before.log
    };
    let stopped_on = goes_on(STOPPED, still, x, standing);
    let broken_down_on = goes_on(BROKEN_DOWN, still, x, standing);
    State {
        taken: before.taken + 1,
        filter,
        ignition: x.switches_on().ignition,
        runs,
        stoppedcycle: cycle_after(stopped_on, now, before.stoppedcycle),
        brokendowncycle: cycle_after(broken_down_on, now, before.brokendowncycle),
        log,
    }
}
