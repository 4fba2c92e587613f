// The parts of an image, each from the engine's state.
ghost use Rattle.std.specs.Prelude.{◌≡◌, take};
ghost use Rattle.image.specs.Image.{number_count, filter_bits, flags_of, standing_bytes, words_of};

use crate::{FLAGS, NUMBERS};
use filter::Filter;
use history::State;
use message::Message;

#[tactic(auto, unfolding(crate::specs::Image::filter_bits))]
fn filter_bits(f: Filter) -> u32
    ensures { result ≡ filter_bits f }
{
    match f {
        Filter::Empty => 0,
        Filter::Running(x) => filter::bits_of(x),
    }
}

#[tactic(auto, unfolding(crate::specs::Image::flags_of))]
pub(crate) fn flags_of(s: State) -> [u8; FLAGS]
    ensures { result ≡ flags_of s }
{
    let first = s.stoppedcycle.marks;
    let second = s.brokendowncycle.marks;
    [
        matches!(s.filter, Filter::Running(_)),
        s.ignition,
        first.park,
        first.idle,
        first.brake,
        first.belt,
        first.expiring,
        second.park,
        second.idle,
        second.brake,
        second.belt,
        second.expiring,
        s.log.standing.is_some(),
        false,
        false,
    ]
    .map(u8::from)
}

#[tactic(auto, unfolding(crate::specs::Image::standing_bytes))]
pub(crate) fn standing_bytes(standing: Option<Message>) -> [u8; 32]
    ensures { result ≡ standing_bytes standing }
{
    match standing {
        None => [0; 32],
        Some(m) => message::encoded(m),
    }
}

// The numbers that stand before the runs.
#[tactic(auto, unfolding(crate::specs::Image::words_of))]
pub(crate) fn numbers_of(s: State) -> [u32; NUMBERS]
    ensures { result ≡ take number_count (words_of s) }
{
    [
        s.taken,
        filter_bits(s.filter),
        s.log.origin.east.cast_unsigned(),
        s.log.origin.north.cast_unsigned(),
        s.stoppedcycle.ticks,
        s.brokendowncycle.ticks,
        s.log.started,
        s.log.counted,
        s.log.lastcancel,
        s.log.events,
    ]
}
