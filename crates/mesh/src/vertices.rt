//! Where the masters of a node stand.
ghost use Rattle.std.specs.Prelude.{◌≡◌};
ghost use Rattle.mesh.specs.Lists.{in_use};
ghost use Rattle.mesh.specs.Placing.{stand, start};

use crate::node::Node;
use crate::tables::{CORNERS, Tables};
use plane::{Position, Triangle};

// The position of a master; corner 0 where there is no such master.
fn stand_at(masters: &[Position], m: u8) -> Position
    ensures { result ≡ stand masters.now m }
{
    masters.get(usize::from(m)).copied().unwrap_or(CORNERS[0])
}

// The triangle of the three masters of a node.
pub(crate) fn vertices_of(masters: &[Position], node: &Node) -> Triangle
    ensures { result ≡ record {
      a = stand masters.now (start node.now 0);
      b = stand masters.now (start node.now 1);
      c = stand masters.now (start node.now 2);
    } }
{
    let [a, b, c] = node.masters;
    Triangle {
        a: stand_at(masters, a),
        b: stand_at(masters, b),
        c: stand_at(masters, c),
    }
}

impl Tables {
    // The triangle of the three masters of a node.
    pub fn vertices(&self, node: &Node) -> Triangle
        ensures { result ≡ record {
          a = stand (in_use self.now).masters (start node.now 0);
          b = stand (in_use self.now).masters (start node.now 1);
          c = stand (in_use self.now).masters (start node.now 2);
        } }
    {
        vertices_of(self.masters(), node)
    }
}
