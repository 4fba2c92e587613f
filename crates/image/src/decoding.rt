// The engine's state, each part from its place in an image.
ghost use Rattle.std.specs.Prelude.{◌≡◌, ◌+◌, ◌≤◌, ◌<◌};
ghost use Rattle.history.specs.Runs.{run_count};
ghost use Rattle.image.specs.Image.{flag_count, number_count, flag_in, number_in, coordinate_in, runs_in, filter_in, standing_in, marks_in, log_in, state_in};

use crate::{
    BROKEN_DOWN_MARKS, BROKEN_DOWN_TICKS, BYTES, COUNTED, EAST, EVENTS, FILTER_BITS, FLAGS_AT,
    IGNITION, LAST_CANCEL, NORTH, NUMBERS, RUNNING, SENT, STANDING_AT, STARTED, STOPPED_MARKS,
    STOPPED_TICKS, TAKEN, WORDS_AT,
};
use filter::Filter;
use history::{Conditions, Cycle, Log, RUNS, State};
use message::Message;
use sample::Position;
use std::array;
use std::num::f32_from_bits_with_nan;

// Yes or no, number and coordinate, by their places among the others, in the order of `encoding`.
#[tactic(auto, unfolding(crate::specs::Image::flag_in))]
fn flag_in(image: &[u8; BYTES], k: usize) -> bool
    requires { k < flag_count }
    ensures { result ≡ flag_in k image.now }
{
    image[FLAGS_AT + k] == 1
}

#[tactic(auto, unfolding(crate::specs::Image::number_in))]
fn number_in(image: &[u8; BYTES], k: usize) -> u32
    requires { k < number_count + run_count }
    ensures { result ≡ number_in k image.now }
{
    wire::word_at(image, WORDS_AT + 4 * k)
}

#[tactic(auto, unfolding(crate::specs::Image::number_in, crate::specs::Image::coordinate_in))]
fn coordinate_in(image: &[u8; BYTES], k: usize) -> i32
    requires { k < number_count }
    ensures { result ≡ coordinate_in k image.now }
{
    wire::word_at(image, WORDS_AT + 4 * k)
}

#[tactic(auto, unfolding(crate::specs::Image::runs_in))]
fn runs_in(image: &[u8; BYTES]) -> [u32; RUNS]
    ensures { result ≡ runs_in image.now }
{
    array::from_fn(|i| number_in(image, NUMBERS + i))
}

// The filter by whether it is running and its bits. A NaN's bits are no filter's. A flag with a value beside it, since an image holds
// both, and each byte of both counts.
#[tactic(auto, using(crate::proofs::FilterBits::value_is_nan), unfolding(crate::specs::Image::filter_in))]
fn filter_in(running: bool, bits: u32) -> Filter
    ensures { result ≡ filter_in running bits }
{
    let value = f32_from_bits_with_nan(bits);
    if running && !value.is_nan() {
        Filter::Running(value)
    } else {
        Filter::Empty
    }
}

// The standing warning's message by whether there is one and its record: a flag with a value beside it for the same reason.
#[tactic(auto, using(crate::proofs::StandingIn::notice_of_read), unfolding(crate::specs::Image::standing_in))]
fn standing_in(sent: bool, bytes: &[u8]) -> Option<Message>
    ensures { result ≡ standing_in sent bytes.now }
{
    if sent {
        message::read(bytes).ok()
    } else {
        None
    }
}

// A cycle's marks, by the place of the first of them among the flags.
fn marks_in(image: &[u8; BYTES], first: usize) -> Conditions
    requires { first + 5 ≤ flag_count }
    ensures { result ≡ marks_in first image.now }
{
    Conditions {
        park: flag_in(image, first),
        idle: flag_in(image, first + 1),
        brake: flag_in(image, first + 2),
        belt: flag_in(image, first + 3),
        expiring: flag_in(image, first + 4),
    }
}

#[tactic(auto, unfolding(crate::specs::Image::log_in))]
fn log_in(image: &[u8; BYTES]) -> Log
    ensures { result ≡ log_in image.now }
{
    Log {
        standing: standing_in(flag_in(image, SENT), &image[STANDING_AT..WORDS_AT]),
        started: number_in(image, STARTED),
        origin: Position {
            east: coordinate_in(image, EAST),
            north: coordinate_in(image, NORTH),
        },
        counted: number_in(image, COUNTED),
        lastcancel: number_in(image, LAST_CANCEL),
        events: number_in(image, EVENTS),
    }
}

// The log is read first: its record may take a call, and the numbers read before it would be kept over that call.
#[tactic(auto, unfolding(crate::specs::Image::state_in))]
pub(crate) fn state_in(image: &[u8; BYTES]) -> State
    ensures { result ≡ state_in image.now }
{
    let log = log_in(image);
    State {
        taken: number_in(image, TAKEN),
        filter: filter_in(flag_in(image, RUNNING), number_in(image, FILTER_BITS)),
        ignition: flag_in(image, IGNITION),
        runs: runs_in(image),
        stoppedcycle: Cycle {
            ticks: number_in(image, STOPPED_TICKS),
            marks: marks_in(image, STOPPED_MARKS),
        },
        brokendowncycle: Cycle {
            ticks: number_in(image, BROKEN_DOWN_TICKS),
            marks: marks_in(image, BROKEN_DOWN_MARKS),
        },
        log,
    }
}
