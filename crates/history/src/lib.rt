// The engine's state, and what it looks at and gives at a tick. The rules, the history reading and the theorem that the state's
// step finds the same are in specs/ and proofs/; the code of the step is the crate `engine`.
#![tactic(auto)]

use filter::Filter;
use message::Message;
use sample::{Position, Sample};

// The state's unbroken runs, by their places: for how many ticks up to now the vehicle has stood still, has moved, each lever and
// switch has been as conditions a to h ask, no eCall, no low severity crash or pedestrian collision, no high severity crash came, and no
// sample had a reading. Numbers and no enum: they are places of an array that the loops go over whole.
pub const RUNS: usize = 14;

pub const STILL: usize = 0;

pub const MOVING: usize = 1;

pub const PARK: usize = 2;

pub const IDLE: usize = 3;

pub const BRAKE: usize = 4;

pub const BELT_OFF: usize = 5;

pub const IGNITION_OFF: usize = 6;

pub const DOOR: usize = 7;

pub const BOOT: usize = 8;

pub const BONNET: usize = 9;

pub const NO_ECALL: usize = 10;

pub const NO_LOW: usize = 11;

pub const NO_HIGH: usize = 12;

pub const MISSING: usize = 13;

// Which of conditions a to d are fulfilled, and whether one of e to h is.
#[derive(Clone, Copy)]
pub struct Conditions {
    pub park: bool,
    pub idle: bool,
    pub brake: bool,
    pub belt: bool,
    pub expiring: bool,
}

// A detection cycle of warning 1 or 2: its ticks, and the marks of the conditions that were fulfilled at some tick in it. A cycle of
// 0 ticks is none, and no Option: an image may hold marks beside 0 ticks, and such a state is kept and answered as it stands too.
#[derive(Clone, Copy)]
pub struct Cycle {
    pub ticks: u32,
    pub marks: Conditions,
}

// No cycle runs.
pub const NO_CYCLE: Cycle = Cycle {
    ticks: 0,
    marks: Conditions {
        park: false,
        idle: false,
        brake: false,
        belt: false,
        expiring: false,
    },
};

// What is kept of the messages given: the standing warning's last New or Update, the tick and the position of the last New and the first
// tick that it counted, the tick of the last Cancel of warning 3, and the number of News. While a warning stands, the last New is its own.
#[derive(Clone, Copy)]
pub struct Log {
    pub standing: Option<Message>,
    pub started: u32,
    pub origin: Position,
    pub counted: u32,
    pub lastcancel: u32,
    pub events: u32,
}

// A field for each of the two cycles and no array: each rule and definition is about the one or the other, by its name.
#[derive(Clone, Copy)]
pub struct State {
    pub taken: u32,
    pub filter: Filter,
    pub ignition: bool,
    pub runs: [u32; RUNS],
    pub stoppedcycle: Cycle,
    pub brokendowncycle: Cycle,
    pub log: Log,
}

// What is looked at to decide at a tick. `recent` and `kept` are the highest qualities of the happenings that a New of warning 3
// counts now, and that the last New counted or that came since: 0 where none came, and no Option, since qualities are compared and
// stored as numbers, the record's own byte.
#[derive(Clone, Copy)]
pub struct View {
    pub tick: u32,
    pub sample: Sample,
    pub standing: Option<Message>,
    pub started: u32,
    pub origin: Position,
    pub events: u32,
    pub stationary: u32,
    pub moving: u32,
    pub switchedoff: bool,
    pub shortening: bool,
    pub expiring: bool,
    pub stoppedcycle: Cycle,
    pub brokendowncycle: Cycle,
    pub recent: u8,
    pub kept: u8,
}

// What is given at a tick: a Cancel or none, and then a New or an Update or none.
#[derive(Clone, Copy)]
pub struct Decision {
    pub cancel: Option<Message>,
    pub report: Option<Message>,
}

#[derive(Clone, Copy)]
pub struct Stepped {
    pub state: State,
    pub decision: Decision,
}
