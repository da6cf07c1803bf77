//! How placing changes one node.
ghost use Rattle.std.specs.Prelude.{◌≡◌, ◌<◌, Some, slice_set};
ghost use Rattle.mesh.specs.Placing.{entry, with_killer, with_son, with_neighbour};

use crate::gathering::next_side;
use crate::node::Node;

// Writes a number into a place, where there is one.
fn put(places: &mut [Option<u16>], at: usize, number: u16)
    ensures { places.new ≡ slice_set places.old at (Some number) }
{
    // by index: no contract says what a slice holds after a write through get_mut
    if at < places.len() {
        places[at] = Some(number);
    }
}

impl Node {
    pub(crate) fn kill(&mut self, killer: u8)
        ensures { self.new ≡ with_killer killer self.old }
    {
        self.killer = Some(killer);
    }

    pub(crate) fn add_son(&mut self, side: u8, son: u16)
        ensures { self.new ≡ with_son side son self.old }
    {
        put(&mut self.sons, usize::from(side), son);
    }

    // What stands across a side where the edge from b to a gets a new neighbour.
    fn entry(&self, a: u8, b: u8, neighbour: u16, side: usize) -> Option<u16>
        requires { side < 3 }
        ensures { result ≡ entry a b neighbour self.now side }
    {
        if self.masters[side] == b && self.masters[next_side(side)] == a {
            Some(neighbour)
        } else {
            self.neighbours[side]
        }
    }

    // Only the entry for the edge from b to a changes.
    pub(crate) fn set_neighbour(&mut self, a: u8, b: u8, neighbour: u16)
        ensures { self.new ≡ with_neighbour a b neighbour self.old }
    {
        self.neighbours = std::array::from_fn(|side| self.entry(a, b, neighbour, side));
    }
}
