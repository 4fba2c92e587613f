// A state with room for what a step adds to its numbers.
ghost use Rattle.engine.specs.Fits.{StateFits};

use history::State;

// A state that has taken 10,000,000 samples at most, and of which no count and no tick is above the number of samples taken.
#[derive(Clone, Copy)]
pub(crate) struct Bounded {
    pub state: State,
    ghost fits: { StateFits state },
}
