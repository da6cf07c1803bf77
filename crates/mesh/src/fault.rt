//! Why a node is not given, and why a master is not placed.
ghost use Rattle.mesh.specs.Refusals.{node_refusal, place_refusal};

use plane::Fault;

#[derive(Clone, Copy, PartialEq, Eq, Debug)]
pub enum NodeFault {
    // the tree has no node of that number
    NoSuchNode,
}

impl Fault for NodeFault {
    ghost refusal = { node_refusal };

    fn number(self) -> u8 {
        match self {
            NodeFault::NoSuchNode => 6,
        }
    }
}

#[derive(Clone, Copy, PartialEq, Eq, Debug)]
pub enum PlaceFault {
    // a coordinate is not from 1 to 4,095
    NotInside,
    // the position holds this master already
    Taken(u8),
    // the family has 128 masters
    MastersFull,
    // the nodes in use and those to be made exceed 1,024
    NodesFull,
}

impl Fault for PlaceFault {
    ghost refusal = { place_refusal };

    fn number(self) -> u8 {
        match self {
            PlaceFault::NotInside => 2,
            PlaceFault::Taken(_) => 3,
            PlaceFault::MastersFull => 4,
            PlaceFault::NodesFull => 5,
        }
    }
}
