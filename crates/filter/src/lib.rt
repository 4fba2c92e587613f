// The speed filter of document 01, "Standing still": it smooths the readings of the speed in cm/s.
#![tactic(auto)]

ghost use Rattle.std.specs.Prelude.{◌≡◌};
ghost use Rattle.std.specs.Float.{binary32};
ghost use Rattle.std.specs.Float.Ieee.{to_bits};
ghost use Rattle.filter.specs.Filter.{as_f32, blend, is_at_most_8, in_range, Moved};

use sample::NO_READING;

// The bits of the value at which readings of 0 let the filter rest: twice the smallest number.
const REST: u32 = 2;

// Without a reading yet, or running with its value. The project names this form, so it is no Option.
#[derive(Clone, Copy)]
pub enum Filter {
    Empty,
    Running(f32),
}

impl Filter {
    // The filter after one more sample. The value moves a quarter of the way to the reading.
    pub fn next(self, reading: u16) -> Filter
        ensures { Moved self reading result }
    {
        if reading == NO_READING {
            return self;
        }
        match self {
            Filter::Empty => Filter::Running(f32::from(reading)),
            Filter::Running(f) => Filter::Running(blended(f, reading)),
        }
    }

    // Whether the value is low enough for a stationary vehicle. Without a reading yet there is no value, and the answer is no.
    pub fn at_most_8(self) -> bool
        ensures { result ≡ is_at_most_8 self }
    {
        match self {
            Filter::Empty => false,
            Filter::Running(f) => f <= 8.0,
        }
    }

    // Whether readings can have led here: they are 0 to 16382, and the value stays between them. A NaN passes neither test.
    pub fn in_range(self) -> bool
        ensures { result ≡ in_range self }
    {
        match self {
            Filter::Empty => true,
            Filter::Running(f) => (0.0 <= f) & (f <= 16382.0),
        }
    }
}

// The value moved by a reading. At rest it does not move, and is not computed: a processor takes long over so small a number.
fn blended(f: f32, reading: u16) -> f32
    ensures { result ≡ blend f (as_f32 reading) }
{
    if reading == 0 && bits_of(f) == REST {
        return f;
    }
    let x = f32::from(reading);
    f + (x - f) * 0.25
}

// The bits of a value. All NaNs get one pattern.
pub fn bits_of(f: f32) -> u32
    ensures { result ≡ to_bits binary32 f }
{
    if f.is_nan() { 2143289344 } else { f.to_bits() }
}
