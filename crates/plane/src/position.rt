//! Positions.
ghost use Rattle.std.specs.Prelude.{Decides};
ghost use Rattle.plane.specs.Plane.{InPlane, Within};

const EDGE: u16 = 4096;

// A place in the plane of a family, weight along u and width along v. Any two numbers can be passed.
#[derive(Clone, Copy, PartialEq, Eq, Debug)]
pub struct Position {
    pub u: u16,
    pub v: u16,
}

impl Position {
    // Whether it lies in the plane, the border counted.
    pub fn in_plane(self) -> bool
        ensures { Decides result (InPlane self) }
    {
        self.u <= EDGE && self.v <= EDGE
    }

    // Whether it lies in the plane and not on its border: placed masters and questions stand there.
    pub fn is_inside(self) -> bool
        ensures { Decides result (Within self) }
    {
        (1..EDGE).contains(&self.u) && (1..EDGE).contains(&self.v)
    }
}
