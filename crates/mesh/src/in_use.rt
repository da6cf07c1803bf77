//! The tables without their filler.
ghost use Rattle.std.specs.Prelude.{◌≡◌, ◌≤◌, length, take};
ghost use Rattle.mesh.specs.Lists.{in_use};

use crate::node::Node;
use crate::tables::Tables;
use plane::Position;

// The first n of a table, or all where there are not as many.
pub(crate) fn front<T>(table: &[T], n: usize) -> &[T]
    ensures value { result.now ≡ take n table.now }
    ensures most { length result.now ≤ length table.now }
{
    table.get(..n).unwrap_or(table)
}

// The bounds of both lists are said again where they are passed on, since a slice has no type that bounds it.
impl Tables {
    // The positions of the masters, by number.
    pub fn masters(&self) -> &[Position]
        ensures value { result.now ≡ (in_use self.now).masters }
        ensures most { length result.now ≤ 128 }
    {
        front(&self.positions, self.count)
    }

    // The nodes, by number.
    pub fn nodes(&self) -> &[Node]
        ensures value { result.now ≡ (in_use self.now).nodes }
        ensures most { length result.now ≤ 1024 }
    {
        front(&self.nodes, self.used)
    }
}
