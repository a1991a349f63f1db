// An accepted plan in lent tables, and what the check found of it.
#![tactic(auto)]

ghost use Rattle.cells.specs.Backed.{Backed};
ghost use Rattle.cells.specs.Sound.{Sound};
ghost use Rattle.face.specs.Tables.{tables};
ghost use Rattle.boxes.specs.Boxes.{Boxed};

use face::Cells;

// Its corners, its cells, of each face the one on its other side, of each cell its box, and its doors.
#[derive(Clone, Copy)]
pub struct Accepted<'a, 'c> {
    pub corners: &'a [i32],
    pub cells: Cells<'c>,
    pub backs: &'a [u16],
    pub boxes: &'a [i32],
    pub doors: &'a [u16],
    pub ghost sound: { Sound corners.now (tables cells) doors.now },
    pub ghost backed: { Backed (tables cells) backs.now },
    pub ghost boxed: { Boxed corners.now (tables cells) boxes.now },
}
