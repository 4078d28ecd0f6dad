// Rows of the near table.

ghost use Rattle.std.specs.Prelude.{◌^◌, ◌≤◌, length};
ghost use Rattle.hosts.specs.Local.{Written, RowWritten, RowsBlank};

use bundling::Near;
use measure::Cost;
use queue::below;
use waterway::Label;

// Writes the row of a mark if its label is below the rim, and where there is room; returns where the next row goes.
fn write_row<C: Cost>(near: &mut [Near<C>], at: usize, mark: u16, label: Option<C>, rim: C) -> usize
    requires { at ≤ 2 ^ 32 }
    ensures { RowWritten C.Cost.kind label near.old near.new at mark rim result }
{
    let Some(cost) = label.filter(|cost| below(*cost, rim)) else {
        return at;
    };
    if at < near.len() {
        near[at] = Near { mark, cost };
    }
    at + 1
}

// Writes the rows of all marks with a label below the rim, by rising mark; counts on where there is no room.
pub fn write_rows<C: Cost>(labels: &[Label<C>], near: &mut [Near<C>], start: usize, rim: C) -> usize
    requires few { length labels.now ≤ 256 }
    requires low { start ≤ 2 ^ 31 }
    ensures { Written C.Cost.kind labels.now near.old near.new start result (length labels.now) rim }
{
    let mut at = start;
    for (mark, label) in (0u16..).zip(labels) {
        at = write_row(near, at, mark, label.told(), rim);
    }
    at
}

// Blanks the rows from `start` on.
pub fn blank_rows<C: Cost>(near: &mut [Near<C>], start: usize)
    ensures { RowsBlank C.Cost.kind near.old near.new start (length near.new) }
{
    let start = start.min(near.len());
    // No mark has the number of a blank row.
    let row = Near {
        mark: u16::MAX,
        cost: C::zero(),
    };
    // Not by `fill`: nothing is known of what a cost's `clone` gives.
    near[start..].fill_with(|| row);
}
