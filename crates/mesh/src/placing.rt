//! Placing a master.
ghost use Rattle.std.specs.Prelude.{◌≡◌, ◌+◌, ◌<◌, ◌≤◌, false, [], ◌∷◌, ◌++◌, length, take, is_ok, IfOk};
ghost use Rattle.plane.specs.Refusal.{refused, first};
ghost use Rattle.mesh.specs.Lists.{in_use};
ghost use Rattle.mesh.specs.Refusals.{master_at, master_rows, nodes_row, place_rows, place_refusal};
ghost use Rattle.mesh.specs.Search.{first_at};
ghost use Rattle.mesh.specs.Opened.{Opened, Placed};
ghost use Rattle.plane.specs.Plane.{InPlane};
ghost use Rattle.mesh.specs.Placing.{Housed};

use crate::fault::PlaceFault;
use crate::growing::{Rim, mark};
use crate::hole::Hole;
use crate::in_use::front;
use crate::killing::Newcomer;
use crate::tables::{MOST_MASTERS, MOST_NODES, Tables};
use plane::{Measure, Position};

// The master that stands at p.
fn master_at(masters: &[Position], p: Position) -> Option<u8>
    requires { length masters.now ≤ 128 }
    ensures { result ≡ master_at masters.now p }
{
    masters.iter().position(|q| *q == p).map(|i| i as u8)
}

// A position that can be the next master's.
#[derive(Clone, Copy)]
struct Admitted {
    p: Position,
    ghost inside: { InPlane p },
}

// Whether p can be the position of the next master.
fn admit(masters: &[Position], p: Position) -> Result<Admitted, PlaceFault>
    requires { length masters.now ≤ 128 }
    ensures refuses { refused place_refusal result ≡ first (master_rows masters.now p) }
    ensures admits { IfOk result (λ admitted. admitted.p ≡ p) }
{
    if !p.is_inside() {
        return Err(PlaceFault::NotInside);
    }
    if let Some(master) = master_at(masters, p) {
        return Err(PlaceFault::Taken(master));
    }
    if masters.len() >= MOST_MASTERS {
        return Err(PlaceFault::MastersFull);
    }
    Ok(Admitted { p })
}

// Puts a position behind the first `count`.
fn put_last(positions: &mut [Position], count: usize, p: Position)
    requires { count < length positions.old }
    ensures { take (count + 1) positions.new ≡ take count positions.old ++ p ∷ [] }
{
    positions[count] = p;
}

impl Tables {
    // Places a master where these nodes are killed. The work on the tables asks no measure.
    fn open(&mut self, admitted: Admitted, doomed: &[bool]) -> Result<u8, PlaceFault>
        requires masters { length (in_use self.old).masters < 128 }
        requires killed { length doomed.now ≡ length (in_use self.old).nodes }
        ensures refuses { refused place_refusal result ≡ first (nodes_row doomed.now (in_use self.old).nodes ∷ []) }
        ensures places { IfOk result (λ n. Opened (in_use self.old) admitted.p doomed.now n (in_use self.new)) }
        ensures keeps { is_ok result ≡ false → self.new ≡ self.old }
    {
        let used = self.nodes().len();
        let hole = Hole::of(doomed, self.nodes());
        if used + hole.count > MOST_NODES {
            return Err(PlaceFault::NodesFull);
        }
        let count = self.masters().len();
        let number = count as u8;
        mark(&mut self.nodes, doomed, number);
        let rim = Rim {
            edges: hole.edges(),
            first: used,
            master: number,
        };
        rim.grow(&mut self.nodes);
        self.used = used + hole.count;
        put_last(&mut self.positions, count, admitted.p);
        self.count = count + 1;
        Ok(number)
    }

    // Places p, the next master, and answers its number. A refusal changes nothing.
    pub fn place<M: Measure>(&mut self, measure: &M, p: Position) -> Result<u8, PlaceFault>
        ensures refuses { Housed (in_use self.old).masters
            → refused place_refusal result ≡ first (place_rows (M.heights measure.now) (in_use self.old) p) }
        ensures places { IfOk result (λ n. Housed (in_use self.old).masters
            → Placed (M.heights measure.now) (in_use self.old) p n (in_use self.new)) }
        ensures keeps { is_ok result ≡ false → self.new ≡ self.old }
    {
        let admitted = admit(self.masters(), p)?;
        let newcomer = Newcomer {
            measure,
            masters: self.masters(),
            p: admitted.p,
        };
        let killed = newcomer.doomed(self.nodes());
        self.open(admitted, front(&killed, self.nodes().len()))
    }
}
