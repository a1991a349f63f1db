// What every crate may know of a plan: its limits (document 01, "The plan file"), and the refusals with their numbers ("Reply numbers").
#![tactic(auto)]

ghost use Rattle.std.specs.Prelude.{◌≡◌};
ghost use Rattle.limits.specs.Limits.{sized};

mod reply;

// The counts of an accepted plan; its constants are the limits of every plan.
#[derive(Clone, Copy)]
pub struct Plan {
    pub corners: usize,
    pub cells: usize,
    pub doors: usize,
}

impl Plan {
    pub const LEAST_CORNERS: usize = 3;

    pub const MOST_CORNERS: usize = 2048;

    pub const LEAST_CELLS: usize = 1;

    pub const MOST_CELLS: usize = 3000;

    pub const MOST_DOORS: usize = 64;
    // the sides, and corners, of one cell (document 02, A14)
    pub const LEAST_SIDES: u16 = 3;

    pub const MOST_SIDES: u16 = 8;
    // the kind of a list of cells of three corners, and of a list that has each cell's corner count before it
    pub const TRIANGLES: u16 = 2;

    pub const POLYGONS: u16 = 12;
    // the stands of one call (document 02, A1)
    pub const MOST_STANDS: usize = 32;
    // a stated reach, in millimetres (document 02, A5)
    pub const LEAST_REACH: u64 = 1;

    pub const MOST_REACH: u64 = 262144;
    // a drawn corner is no further from the stand in either axis, in millimetres (document 02, A2)
    pub const MOST_OFFSET: i64 = 16777216;
    // coordinates go from −COORDINATE to COORDINATE
    pub const COORDINATE: i32 = 536870912;
    // the neighbour of a side that is wall
    pub const WALL: u16 = 65535;

    // Are the counts within the limits?
    #[tactic(auto, unfolding(crate::specs::Limits::sized))]
    pub fn is_sized(self) -> bool
        ensures { result ≡ sized self.corners self.cells self.doors }
    {
        (Plan::LEAST_CORNERS..=Plan::MOST_CORNERS).contains(&self.corners)
            && (Plan::LEAST_CELLS..=Plan::MOST_CELLS).contains(&self.cells)
            && self.doors <= Plan::MOST_DOORS
    }
}

// Every refusal, with its place where it has one; specs/Reply.antt gives document 01's numbers.
#[derive(Clone, Copy)]
pub enum Refusal {
    Frame,
    Size,
    Corner(usize),
    Cell(usize),
    Neighbour(usize),
    Door(usize),
    Overlap(usize),
    Setting,
    Stand,
    Line,
    Outside,
    Room,
    Change,
    Rows,
    Far,
    Reach,
    Ceiling,
}
