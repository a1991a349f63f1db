// Side values and what their signs decide (document 01, "Side value and plan check" and "The stand"): the area test, the containment test of one side,
// and whether a point is strictly within a side.
#![tactic(auto)]

ghost use Rattle.std.specs.Prelude.{◌≡◌};
ghost use Rattle.plane.specs.Side.{corner, side_of, AllNear};
ghost use Rattle.plane.specs.Cone.{minus, dot};
ghost use Rattle.plane.specs.Tests.{right_cell, by_value, beside_of, within_of};

use std::cmp::Ordering;

// The side value of three points (document 01, "Side value and plan check").
pub fn side_value(p: [[i64; 2]; 3]) -> i64
    requires { AllNear p }
    ensures { result ≡ side_of p }
{
    let a = p[0];
    let b = p[1];
    let c = p[2];
    let ux = b[0] - a[0];
    let uy = b[1] - a[1];
    let vx = c[0] - a[0];
    let vy = c[1] - a[1];
    let left = ux * vy;
    let right = uy * vx;
    left - right
}

// The area test: is the cell right, its side value positive?
pub fn is_right(cell: [[i64; 2]; 3]) -> bool
    requires { AllNear cell }
    ensures { result ≡ right_cell cell }
{
    0 < side_value(cell)
}

// Where a point lies against a side, or against a right cell.
#[derive(Clone, Copy)]
pub enum Containment {
    Inside,
    Border,
    Outside,
}

// Where a point lies by the side value of one side, or by the least side value of a cell's sides.
#[tactic(auto, unfolding(crate::specs::Tests::by_value))]
pub fn placed(value: i64) -> Containment
    ensures { result ≡ by_value value }
{
    match value.cmp(&0) {
        Ordering::Less => Containment::Outside,
        Ordering::Equal => Containment::Border,
        Ordering::Greater => Containment::Inside,
    }
}

// The containment test of one side (document 01, "The stand"; document 02, A14): the side's two ends, and the point asked about.
pub fn beside(p: [[i64; 2]; 3]) -> Containment
    requires { AllNear p }
    ensures { result ≡ beside_of p }
{
    placed(side_value(p))
}

// The dot product of a side's two ends, seen from a third point.
fn ends_seen(p: [[i64; 2]; 3]) -> i64
    requires { AllNear p }
    ensures { result ≡ dot (minus (corner p 0) (corner p 2)) (minus (corner p 1) (corner p 2)) }
{
    let a = p[0];
    let b = p[1];
    let q = p[2];
    let ux = a[0] - q[0];
    let uy = a[1] - q[1];
    let vx = b[0] - q[0];
    let vy = b[1] - q[1];
    let across = ux * vx;
    let up = uy * vy;
    across + up
}

// Is a point strictly within a side (document 02, A4)? It is on the side's line, and seen from it the ends lie in opposite directions.
pub fn is_within(p: [[i64; 2]; 3]) -> bool
    requires { AllNear p }
    ensures { result ≡ within_of p }
{
    side_value(p) == 0 && ends_seen(p) < 0
}
