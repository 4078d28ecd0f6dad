// The frames of a chart file, and the bytes that they stand for.
ghost use Rattle.std.specs.Prelude.{◌≡◌, ℕ, ◌%◌, ◌<◌, [], ◌∷◌, ◌++◌, sum, MatchOption, ◌≢◌};
ghost use Rattle.chartfile.specs.Frames.{high, low, fields};
ghost use Rattle.chartfile.specs.Kinds.{kind_of};
ghost use Rattle.chartfile.specs.Reading.{StandsFor};

use crate::kind::Kind;
use waterway::Leg;

#[derive(Clone, Copy)]
pub enum Frame {
    // So many marks.
    Head(u16),
    Entry(Leg),
    Pivot(u16),
    Home(u16),
    // So many frames stand before this one.
    Last(u16),
}

// The version of a file, which its first frame tells.
pub const VERSION: u8 = 0x01;

impl Frame {
    pub fn kind(self) -> Kind
        ensures { result ≡ kind_of self }
    {
        match self {
            Frame::Head(_) => Kind::Head,
            Frame::Entry(leg) if leg.open => Kind::OpenLeg,
            Frame::Entry(_) => Kind::ClosedLeg,
            Frame::Pivot(_) => Kind::Pivot,
            Frame::Home(_) => Kind::Home,
            Frame::Last(_) => Kind::Last,
        }
    }
}

// What the bytes of a frame add up to, modulo 256: 0 in a sound frame. The form is fixed: one loop sums them, for checking and for writing.
pub fn sum_of(bytes: &[u8]) -> u8
    ensures { result ≡ sum bytes.now % 256 }
{
    let mut sum: u8 = 0;
    for byte in bytes {
        sum = sum.wrapping_add(*byte);
    }
    sum
}

// The frame that some bytes stand for, whose last one makes them add up.
pub fn frame_of(bytes: &[u8]) -> Option<Frame>
    ensures { StandsFor bytes.now result }
{
    match Kind::try_from(*bytes.first()?).ok()? {
        Kind::Head => Some(Frame::Head(marks_of(bytes)?)),
        Kind::OpenLeg => Some(Frame::Entry(leg_of(bytes, true)?)),
        Kind::ClosedLeg => Some(Frame::Entry(leg_of(bytes, false)?)),
        Kind::Pivot => Some(Frame::Pivot(number_of(bytes)?)),
        Kind::Home => Some(Frame::Home(number_of(bytes)?)),
        Kind::Last => Some(Frame::Last(number_of(bytes)?)),
    }
}

fn marks_of(bytes: &[u8]) -> Option<u16>
    ensures { MatchOption result ((kind n check : ℕ) → bytes.now ≢ kind ∷ 1 ∷ high n ∷ low n ∷ check ∷ []) (λ n. (kind : ℕ) × (check : ℕ) × (check < 256) × (bytes.now ≡ kind ∷ 1 ∷ high n ∷ low n ∷ check ∷ [])) }
{
    let [_, VERSION, high, low, _] = bytes else {
        return None;
    };
    Some(u16::from_be_bytes([*high, *low]))
}

fn number_of(bytes: &[u8]) -> Option<u16>
    ensures { MatchOption result ((kind n check : ℕ) → bytes.now ≢ kind ∷ high n ∷ low n ∷ check ∷ []) (λ n. (kind : ℕ) × (check : ℕ) × (check < 256) × (bytes.now ≡ kind ∷ high n ∷ low n ∷ check ∷ [])) }
{
    let [_, high, low, _] = bytes else {
        return None;
    };
    Some(u16::from_be_bytes([*high, *low]))
}

fn leg_of(bytes: &[u8], open: bool) -> Option<Leg>
    ensures { MatchOption result ((kind check : ℕ) (leg : Leg) → bytes.now ≢ kind ∷ fields leg ++ check ∷ []) (λ leg. (leg.«open» ≡ «open») × ((kind : ℕ) × (check : ℕ) × (check < 256) × (bytes.now ≡ kind ∷ fields leg ++ check ∷ []))) }
{
    let [
        _,
        from_high,
        from_low,
        to_high,
        to_low,
        length_high,
        length_low,
        locks,
        _,
    ] = bytes
    else {
        return None;
    };
    Some(Leg {
        from: u16::from_be_bytes([*from_high, *from_low]),
        to: u16::from_be_bytes([*to_high, *to_low]),
        length: u16::from_be_bytes([*length_high, *length_low]),
        locks: *locks,
        open,
    })
}
