// Why a queue refuses a call.
ghost use Rattle.std.specs.Prelude.{◌≡◌};
ghost use Rattle.queue.specs.Refusals.{number_of};

// Each refusal has a number of its own, and a call's checks run in the order of the numbers.
#[derive(Clone, Copy, Debug, PartialEq, Eq)]
pub enum Refusal {
    PastSpan = 22,
    HeldAlready = 23,
    NotHeld = 24,
    NotLower = 25,
}

impl Refusal {
    // The numbers stand at the variants.
    pub fn number(self) -> u8
        ensures { result ≡ number_of self }
    {
        self as u8
    }
}
