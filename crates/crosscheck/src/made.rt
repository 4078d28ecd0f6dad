// Charts made up from a seed.
ghost use Rattle.std.specs.Prelude.{◌≡◌};

use dice::LongDice;
use std::alloc::{AllocError, Global};
use waterway::Leg;

// Between which marks legs are laid.
pub enum Layout {
    Anywhere,
    // So many groups of marks, with no leg between two of them.
    Islands(u16),
    Chain,
}

// What a made-up chart is like: so many legs at most, of at most such a length and so many locks, so many in a hundred closed;
// every so many marks one is searched from.
pub struct Shape {
    pub charts: u16,
    pub marks: u16,
    pub legs: u16,
    pub longest: u16,
    pub most_locks: u8,
    pub closed: u16,
    pub layout: Layout,
    pub every: u16,
}

impl Layout {
    // Whether a leg may be laid between two marks.
    fn allows(&self, from: u16, to: u16) -> bool {
        match self {
            Layout::Islands(count) => from.checked_rem(*count) == to.checked_rem(*count),
            _ => true,
        }
    }
}

// Two marks that leg number k may join.
fn ends(shape: &Shape, dice: &mut LongDice, k: u16) -> Option<(u16, u16)> {
    let (from, to) = match shape.layout {
        Layout::Chain => (k, k.saturating_add(1)),
        _ => (dice.roll(shape.marks), dice.roll(shape.marks)),
    };
    let stands = from != to && from < shape.marks && to < shape.marks;
    (stands && shape.layout.allows(from, to)).then_some((from, to))
}

fn make_leg(shape: &Shape, dice: &mut LongDice, from: u16, to: u16) -> Leg
    ensures { (result.from ≡ from) × (result.to ≡ to) }
{
    let length = dice.roll(shape.longest).saturating_add(1);
    // The cast loses nothing: no roll is above the most locks.
    let locks = dice.roll(u16::from(shape.most_locks) + 1) as u8;
    let open = dice.roll(100) >= shape.closed;
    Leg {
        from,
        to,
        length,
        locks,
        open,
    }
}

pub fn make_legs(heap: Global, shape: &Shape, dice: &mut LongDice) -> Result<Vec<Leg>, AllocError> {
    (0..shape.legs)
        .filter_map(|k| {
            let (from, to) = ends(shape, dice, k)?;
            Some(make_leg(shape, dice, from, to))
        })
        .collect(heap)
}
