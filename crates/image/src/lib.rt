// The engine's state as an image of `BYTES` bytes, so that a unit can keep it over a restart.
#![tactic(auto)]

mod decoding;
mod encoding;

ghost use Rattle.std.specs.Prelude.{◌≡◌, ◌&&◌, eqb, get_or, bytes_eq};
ghost use Rattle.history.specs.Ranges.{state_in_range};
ghost use Rattle.image.specs.Image.{layout, image_of, Saved, Loaded};

use history::{RUNS, State};
use wire::Refusal;

// The first byte of an image. Every change of what an image holds raises it, so that no image of other software is misread.
const LAYOUT: u8 = 3;

// Yes or no, by their places: whether the filter is running, ignition, five marks of each cycle, whether a warning stands; and two
// zeros, so that every number stands at a place that four divides, where the compiler compares it whole. The places here and below are
// numbers and no enum: they are places of bytes, which the header fixes.
const RUNNING: usize = 0;

const IGNITION: usize = 1;

const STOPPED_MARKS: usize = 2;

const BROKEN_DOWN_MARKS: usize = STOPPED_MARKS + 5;

const SENT: usize = BROKEN_DOWN_MARKS + 5;

const FLAGS: usize = SENT + 3;

// The numbers before the runs, by their places.
const TAKEN: usize = 0;

const FILTER_BITS: usize = 1;

const EAST: usize = 2;

const NORTH: usize = 3;

// The counts stand behind these.
const COUNTS: usize = 4;

const STOPPED_TICKS: usize = COUNTS;

const BROKEN_DOWN_TICKS: usize = COUNTS + 1;

const STARTED: usize = COUNTS + 2;

const COUNTED: usize = COUNTS + 3;

const LAST_CANCEL: usize = COUNTS + 4;

const EVENTS: usize = COUNTS + 5;

const NUMBERS: usize = COUNTS + 6;

// The parts of an image, one behind the other: yes or no, the standing warning's record, the numbers, the runs.
const FLAGS_AT: usize = 1;

const STANDING_AT: usize = FLAGS_AT + FLAGS;

const WORDS_AT: usize = STANDING_AT + 32;

const RUNS_AT: usize = WORDS_AT + 4 * NUMBERS;

pub const BYTES: usize = RUNS_AT + 4 * RUNS;

pub fn save(state: State) -> [u8; BYTES]
    ensures { Saved state result }
{
    let flags = encoding::flags_of(state);
    let record = encoding::standing_bytes(state.log.standing);
    let numbers = encoding::numbers_of(state).map(u32::to_le_bytes);
    let runs = state.runs.map(u32::to_le_bytes);
    let mut image = [0; BYTES];
    image[0] = LAYOUT;
    wire::copy_at(&mut image, FLAGS_AT, &flags);
    wire::copy_at(&mut image, STANDING_AT, &record);
    wire::copy_at(&mut image, WORDS_AT, numbers.as_flattened());
    wire::copy_at(&mut image, RUNS_AT, runs.as_flattened());
    image
}

// Whether the image has this layout, refusal 21 lets the state pass, and saving the state makes the same bytes.
fn is_saved(state: State, image: &[u8; BYTES]) -> bool
    ensures { result ≡ (eqb (get_or image.now 0 0) layout && state_in_range state && bytes_eq (image_of state) image.now) }
{
    image[0] == LAYOUT && ranges::state_in_range(state) && save(state) == *image
}

pub fn load(image: &[u8]) -> Result<State, Refusal>
    ensures { Loaded image.now result }
{
    let image = image.as_array::<BYTES>().ok_or(Refusal::EngineState)?;
    let state = decoding::state_in(image);
    if is_saved(state, image) {
        Ok(state)
    } else {
        Err(Refusal::EngineState)
    }
}
