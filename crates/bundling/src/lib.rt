// Hosts and rows of the near table, and why the search by bundles is right, over any graph and over a waterway.
#![tactic(auto)]

ghost use Rattle.std.specs.Prelude.{◌≡◌};
ghost use Rattle.bundling.specs.Marks.{is_at};

// A mark of a ball, and what it is away.
#[derive(Clone, Copy, Debug, PartialEq, Eq)]
pub struct Near<C> {
    pub mark: u16,
    pub cost: C,
}

// The host of a mark, if it has one, and where the ball of the mark stands in the near table.
// Two ends and no slice: the table is the caller's, and is written while the hosts are.
#[derive(Clone, Copy, Debug, PartialEq, Eq)]
pub struct Host<C> {
    pub pivot: Option<Near<C>>,
    pub start: usize,
    pub end: usize,
}

impl<C: Copy> Host<C> {
    // Whether this mark is the host.
    pub fn is_of(&self, mark: u16) -> bool
        ensures { result ≡ is_at self.now.pivot mark }
    {
        self.pivot.is_some_and(|pivot| pivot.mark == mark)
    }
}
