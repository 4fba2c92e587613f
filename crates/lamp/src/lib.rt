// The driver's lamp: the seconds to a hazard ahead, from the gap along the road and the own speed.
#![tactic(auto)]

ghost use Rattle.std.specs.Prelude.{◌≡◌};
ghost use Rattle.std.specs.Float.{binary32};
ghost use Rattle.std.specs.Float.Ieee.{div};
ghost use Rattle.lamp.specs.Lamp.{in_range};
ghost use Rattle.lamp.specs.Promise.{Divides, Answers};

// The gap along the road in cm, and the own speed in cm/s, as the speed filter has it.
#[derive(Clone, Copy)]
pub struct Approach {
    pub gap: f32,
    pub speed: f32,
}

// What the lamp shows.
#[derive(Clone, Copy)]
pub enum Lamp {
    Unknown,
    Standing,
    Seconds(f32),
}

impl Approach {
    // A NaN passes neither range.
    pub fn lamp(self) -> Lamp
        ensures { Answers self result }
    {
        if !self.in_range() {
            return Lamp::Unknown;
        }
        if self.speed < 1.0 {
            return Lamp::Standing;
        }
        Lamp::Seconds(self.seconds())
    }

    #[tactic(auto, unfolding(crate::specs::Lamp::in_range))]
    fn in_range(self) -> bool
        ensures { result ≡ in_range self }
    {
        (0.0 <= self.gap) & (self.gap <= 200000.0) & (0.0 <= self.speed) & (self.speed <= 16383.0)
    }

    // The gap divided by the speed, which is at least 1.
    fn seconds(self) -> f32
        requires { Divides self }
        ensures { result ≡ div binary32 self.gap self.speed }
    {
        self.gap / self.speed
    }
}
