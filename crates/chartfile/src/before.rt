// What stands in a file before a frame, and whether the frame may follow.
ghost use Rattle.std.specs.Prelude.{◌<◌, Decides};
ghost use Rattle.chartfile.specs.Order.{Repeats, Counts, Follows, Complete};

use crate::frame::Frame;
use crate::kind::Kind;

// So many frames stand before, and this one is the latest of them.
#[derive(Clone, Copy, Default)]
pub struct Before {
    pub count: usize,
    pub latest: Option<Frame>,
}

impl Before {
    // Whether a frame may stand next.
    pub fn allows(self, frame: Frame) -> bool
        ensures { Decides result (Follows self.count self.latest frame) }
    {
        match self.latest {
            None => frame.kind() == Kind::Head,
            Some(latest) => (latest.kind() < frame.kind() || repeats(latest, frame))
                && counts(self.count, frame),
        }
    }

    // Whether the last frame stood.
    pub fn is_complete(self) -> bool
        ensures { Decides result (Complete self.latest) }
    {
        matches!(self.latest, Some(Frame::Last(_)))
    }
}

fn repeats(latest: Frame, frame: Frame) -> bool
    ensures { Decides result (Repeats latest frame) }
{
    match (latest, frame) {
        (Frame::Entry(_), Frame::Entry(_)) => true,
        (Frame::Pivot(before), Frame::Pivot(mark)) => before < mark,
        _ => false,
    }
}

fn counts(count: usize, frame: Frame) -> bool
    ensures { Decides result (Counts count frame) }
{
    match frame {
        Frame::Last(frames) => usize::from(frames) == count,
        _ => true,
    }
}
