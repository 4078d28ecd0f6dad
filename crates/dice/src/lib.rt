// Pseudo-random numbers from a seed.
#![tactic(auto)]

ghost use Rattle.std.specs.Prelude.{◌≡◌, ◌<◌};

#[cfg(test)]
mod tests;

// A linear congruential generator, which draws the 16 bits from bit FROM of its state.
#[derive(Drop)]
pub struct Dice<const MULTIPLIER: u64, const INCREMENT: u64, const FROM: u32> {
    state: u64,
}

// Of the state the low 32 bits count, and the top 16 of those are drawn.
pub type ShortDice = Dice<1_664_525, 1_013_904_223, 16>;

// All 64 bits of the state count, and the top 16 are drawn.
pub type LongDice = Dice<6_364_136_223_846_793_005, 1_442_695_040_888_963_407, 48>;

impl<const MULTIPLIER: u64, const INCREMENT: u64, const FROM: u32> Dice<
    MULTIPLIER,
    INCREMENT,
    FROM,
> {
    pub fn new(state: u64) -> Self
        ensures { result.state ≡ state }
    {
        Dice { state }
    }

    // A number below `sides`, or 0 where there is none.
    pub fn roll(&mut self, sides: u16) -> u16
        ensures { (0 < sides → result < sides) × (sides ≡ 0 → result ≡ 0) }
    {
        self.state = self.state.wrapping_mul(MULTIPLIER).wrapping_add(INCREMENT);
        // The cast loses nothing of the 16 bits.
        let drawn = (self.state.wrapping_shr(FROM) & 0xffff) as u16;
        drawn.checked_rem(sides).unwrap_or(0)
    }
}
