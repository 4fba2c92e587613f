// What is given at a tick: the three rules, with the unit's settings.
ghost use Rattle.std.specs.Prelude.{◌≡◌, ◌≤◌, ◌-◌, ◌^◌, ◌∷◌, false, pos, min, get_or};
ghost use Rattle.std.specs.List.{find};
ghost use Rattle.warnings.specs.Warnings.{by_rank};
ghost use Rattle.history.specs.Rules.{unit_settings, fulfilled, cycle_triggers, crash_triggers, driver_triggers, triggering, overrules, quality_of, stationary_since, report_of, cancel_of, cancel_standing, squared, distance_exceeded, driven_off, hazard_off, cancel_due, end_due, update_due, raise, keep, decide};
ghost use Rattle.engine.specs.Fits.{ViewFits};

use crate::taking::{ends_without_message, is_unresponsive, rank, standing_rank};
use history::{Cycle, Decision, View};
use message::Message;
use sample::Position;
use warnings::{BY_RANK, CANCEL, NEW, POST_CRASH, UNRESPONSIVE_DRIVER, UPDATE, WARNINGS};

const SILENT: Decision = Decision {
    cancel: None,
    report: None,
};

#[tactic(auto, unfolding(history::specs::Rules::fulfilled))]
fn fulfilled(c: Cycle) -> u32
    ensures { (result ≡ fulfilled c) × (result ≤ 4) }
{
    u32::from(c.marks.park)
        + u32::from(c.marks.idle)
        + u32::from(c.marks.brake)
        + u32::from(c.marks.belt)
}

// A cycle of n ticks has i-a = n-1, so that (i-a) + 100k is at least 300 exactly if n + 100k is above it.
#[tactic(auto, unfolding(history::specs::Rules::cycle_triggers))]
fn cycle_triggers(c: Cycle) -> bool
    ensures { result ≡ cycle_triggers unit_settings c }
{
    (0 < c.ticks) & ((300 < c.ticks.saturating_add(100 * fulfilled(c))) | c.marks.expiring)
}

// Now minus the run's first tick is one less than the run's ticks, and 600 ticks are a minute.
#[tactic(auto, unfolding(history::specs::Rules::stationary_since))]
fn stationary_since(ticks: u32) -> u8
    ensures { result ≡ stationary_since ticks }
{
    match ticks.saturating_sub(1) {
        ..600 => 0,
        ..1200 => 1,
        ..9000 => 2,
        _ => 3,
    }
}

#[tactic(auto, unfolding(history::specs::Rules::cancel_of))]
fn cancel_of(tick: u32, m: Message) -> Message
    ensures { result ≡ cancel_of tick m }
{
    Message {
        kind: CANCEL,
        reference: tick,
        ..m
    }
}

// The Cancel of the standing warning, if any and if it has one.
#[tactic(auto, unfolding(history::specs::Rules::cancel_standing))]
fn cancel_standing(tick: u32, standing: Option<Message>) -> Option<Message>
    ensures { result ≡ cancel_standing tick standing }
{
    standing
        .filter(|m| !ends_without_message(m.warning))
        .map(|m| cancel_of(tick, m))
}

// The square of the difference of two coordinates, or the greatest number where the square is above it. The difference always fits.
#[tactic(auto, unfolding(history::specs::Rules::squared))]
fn squared(a: i32, b: i32) -> i64
    ensures { result ≡ pos (min (squared a b) (2 ^ 63 - 1)) }
{
    let d = i64::from(a) - i64::from(b);
    d.saturating_mul(d)
}

// A square or a sum held at the greatest number is above the bound as well.
#[tactic(auto, unfolding(history::specs::Rules::distance_exceeded))]
fn distance_exceeded(p: Position, q: Position) -> bool
    ensures { result ≡ distance_exceeded p q }
{
    25000000 < squared(p.east, q.east).saturating_add(squared(p.north, q.north))
}

// Whether a warning triggers, by the list of which do. No number but a warning triggers.
fn is_triggered(triggering: [bool; WARNINGS as usize], warning: u8) -> bool
    ensures { result ≡ get_or (false ∷ triggering) warning false }
{
    match warning {
        1..=WARNINGS => {
            let i = usize::from(warning - 1);
            triggering[i]
        }
        _ => false,
    }
}

// What is looked at, with room for what the rules add to its numbers.
#[derive(Clone, Copy)]
pub(crate) struct Seen {
    pub view: View,
    ghost fits: { ViewFits view },
}

impl Seen {
    #[tactic(auto, unfolding(history::specs::Rules::crash_triggers))]
    fn crash_triggers(self) -> bool
        ensures { result ≡ crash_triggers self.view }
    {
        (self.view.recent == 3) | ((0 < self.view.recent) & (0 < self.view.stationary))
    }

    #[tactic(auto, unfolding(history::specs::Rules::driver_triggers))]
    fn driver_triggers(self) -> bool
        ensures { result ≡ driver_triggers self.view }
    {
        is_unresponsive(0 < self.view.stationary, self.view.sample)
    }

    // Whether each warning triggers, from 1 on.
    fn triggering(self) -> [bool; WARNINGS as usize]
        ensures { result ≡ triggering unit_settings self.view }
    {
        [
            cycle_triggers(self.view.stoppedcycle),
            cycle_triggers(self.view.brokendowncycle),
            self.crash_triggers(),
            self.driver_triggers(),
        ]
    }

    // The highest warning that overrules the standing one. What the search asks again and again is found once, before it.
    #[tactic(auto, unfolding(history::specs::Rules::triggers, history::specs::Rules::overrules))]
    fn highest(self) -> Option<u8>
        ensures { result ≡ find (overrules unit_settings self.view) by_rank }
    {
        let triggering = self.triggering();
        let standing = standing_rank(self.view.standing);
        BY_RANK.iter().copied().find(|warning| is_triggered(triggering, *warning)
            & (standing < rank(*warning)))
    }

    #[tactic(auto, unfolding(history::specs::Rules::quality_of))]
    fn quality_of(self, warning: u8, g: u8) -> u8
        ensures { result ≡ quality_of self.view warning g }
    {
        match warning {
            POST_CRASH => g,
            UNRESPONSIVE_DRIVER => 1,
            _ if self.view.expiring => 3,
            _ if self.view.shortening => 2,
            _ => 1,
        }
    }

    #[tactic(auto, unfolding(history::specs::Rules::report_of))]
    fn report_of(self, kind: u8, warning: u8, event: u32, g: u8) -> Message
        ensures { result ≡ report_of kind warning event g self.view }
    {
        let x = self.view.sample;
        Message {
            kind,
            warning,
            quality: self.quality_of(warning, g),
            roadtype: warnings::road_type_of(x.road),
            since: stationary_since(self.view.stationary),
            event,
            detection: self.view.tick,
            reference: self.view.tick,
            position: x.position,
            heading: x.heading,
            validity: warnings::validity_of(warning, x.switches_on().ignition),
        }
    }

    #[tactic(auto, using(crate::proofs::Decided::delay_small), unfolding(history::specs::Rules::driven_off))]
    fn driven_off(self, m: Message) -> bool
        ensures { result ≡ driven_off self.view m }
    {
        let delay = warnings::row_of(m.warning).delay;
        (delay < self.view.moving) & (self.view.started + delay <= self.view.tick)
    }

    #[tactic(auto, unfolding(history::specs::Rules::hazard_off))]
    fn hazard_off(self, m: Message) -> bool
        ensures { result ≡ hazard_off self.view m }
    {
        (m.warning != POST_CRASH) & !self.view.sample.switches_on().hazard
    }

    #[tactic(auto, unfolding(history::specs::Rules::cancel_due))]
    fn cancel_due(self, m: Message) -> bool
        ensures { result ≡ cancel_due self.view m }
    {
        self.driven_off(m)
            | self.hazard_off(m)
            | distance_exceeded(self.view.sample.position, self.view.origin)
    }

    // Whether rule 2 ends the standing warning.
    #[tactic(auto, unfolding(history::specs::Rules::end_due))]
    fn end_due(self, m: Message) -> bool
        ensures { result ≡ end_due self.view m }
    {
        if ends_without_message(m.warning) {
            !self.driver_triggers()
        } else {
            self.cancel_due(m)
        }
    }

    // A sum held at the greatest number is above every tick as well.
    #[tactic(auto, unfolding(history::specs::Rules::update_due))]
    fn update_due(self, m: Message) -> bool
        ensures { result ≡ update_due self.view m }
    {
        let period = warnings::row_of(m.warning).period;
        (m.reference.saturating_add(period) <= self.view.tick)
            | (self.view.switchedoff & (m.warning != UNRESPONSIVE_DRIVER))
    }

    #[tactic(auto, unfolding(history::specs::Rules::raise))]
    fn raise(self, warning: u8) -> Decision
        ensures { result ≡ raise self.view warning }
    {
        let v = self.view;
        Decision {
            cancel: cancel_standing(v.tick, v.standing),
            report: Some(self.report_of(NEW, warning, v.events + 1, v.recent)),
        }
    }

    #[tactic(auto, unfolding(history::specs::Rules::keep))]
    fn keep(self) -> Decision
        ensures { result ≡ keep self.view self.view.standing }
    {
        let v = self.view;
        let Some(m) = v.standing else {
            return SILENT;
        };
        if self.end_due(m) {
            return Decision {
                cancel: cancel_standing(v.tick, v.standing),
                ..SILENT
            };
        }
        if self.update_due(m) {
            return Decision {
                report: Some(self.report_of(UPDATE, m.warning, v.events, v.kept)),
                ..SILENT
            };
        }
        SILENT
    }

    #[tactic(auto, using(crate::proofs::HighestFound::decided))]
    pub(crate) fn decide(self) -> Decision
        ensures { result ≡ decide unit_settings self.view }
    {
        match self.highest() {
            Some(warning) => self.raise(warning),
            None => self.keep(),
        }
    }
}
