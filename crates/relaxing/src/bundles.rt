// What a search by bundles reads.

ghost use Rattle.std.specs.Prelude.{◌≡◌, ◌<◌, length};
ghost use Rattle.relaxing.specs.Search.{BallsFit, ball_in};

use bundling::{Host, Near};
use measure::Measure;
use waterway::Leg;

// A waterway in bundles: legs under a measure, the host of each mark, and the near table with the balls.
// Labels and queue are lent beside it: with two `&mut` fields every contract would have to say that both stay the same references.
#[derive(Drop)]
pub struct Bundles<'a, M: Measure> {
    pub measure: &'a M,
    pub legs: &'a [Leg],
    pub hosts: &'a [Host<M::Cost>],
    pub near: &'a [Near<M::Cost>],
}

impl<M: Measure> Bundles<'_, M> {
    // The ball of a mark.
    pub fn ball(&self, mark: u16) -> &[Near<M::Cost>]
        requires inside { mark < length self.now.hosts.now }
        requires fits { BallsFit M.Cost.Cost.kind self.now.hosts.now self.now.near.now }
        ensures { result.now ≡ ball_in M.Cost.Cost.kind self.now.hosts.now self.now.near.now mark }
    {
        let host = self.hosts[usize::from(mark)];
        &self.near[host.start..host.end]
    }
}
