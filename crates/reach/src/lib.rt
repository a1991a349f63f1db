// The reach of the scanner (document 02, A5): what may be stated, and which lines are in reach.
#![tactic(auto)]

ghost use Rattle.std.specs.Prelude.{◌≤◌, ◌≡◌, nat_abs};
ghost use Rattle.limits.specs.Limits.{most_reach};
ghost use Rattle.plane.specs.Side.{corner};
ghost use Rattle.plane.specs.Cone.{cross, dot};
ghost use Rattle.reach.specs.Reach.{wrong_reach, range as Reach·range, EndsSeen, in_reach};

use limits::Plan;
use wide::{is_at_most, product};

// Is a number stated that is no reach? A query states its reach in millimetres, or none.
#[tactic(auto, unfolding(crate::specs::Reach::wrong_reach))]
pub fn is_wrong(reach: Option<u64>) -> bool
    ensures { result ≡ wrong_reach reach }
{
    match reach {
        None => false,
        Some(n) => !(Plan::LEAST_REACH..=Plan::MOST_REACH).contains(&n),
    }
}

// How far is seen, in millimetres; 0 where that is unlimited.
pub fn range(reach: Option<u64>) -> u64
    ensures { result ≡ Reach·range reach }
{
    reach.unwrap_or(0)
}

// The dot product of a line's two ends, seen from the stand.
fn dot_of(ends: [[i64; 2]; 2]) -> i64
    requires { EndsSeen ends }
    ensures { result ≡ dot (corner ends 0) (corner ends 1) }
{
    let [a, b] = ends;
    a[0] * b[0] + a[1] * b[1]
}

// The size of their cross product.
fn cross_size(ends: [[i64; 2]; 2]) -> u64
    requires { EndsSeen ends }
    ensures { result ≡ nat_abs (cross (corner ends 0) (corner ends 1)) }
{
    let [a, b] = ends;
    (a[0] * b[1] - a[1] * b[0]).unsigned_abs()
}

// Is the line in reach, its two ends seen from the stand? Where an end is, nothing else is asked. Else the nearest point is between the ends or there is
// none: the foot of the perpendicular, if it lies there.
pub fn is_in_reach(ends: [[i64; 2]; 2], reach: u64) -> bool
    requires { EndsSeen ends × (reach ≤ most_reach) }
    ensures { result ≡ in_reach reach (corner ends 0) (corner ends 1) }
{
    let a = ends[0];
    let b = ends[1];
    let square = reach * reach;
    let near = square as i64;
    let far_a = dot_of([a, a]);
    if far_a <= near {
        return true;
    }
    let far_b = dot_of([b, b]);
    if far_b <= near {
        return true;
    }
    let both = dot_of([a, b]);
    if far_a <= both {
        return false;
    }
    if far_b <= both {
        return false;
    }
    // the square of the line's length: it may need the sign's bit
    let length = (far_a - both) as u64 + (far_b - both) as u64;
    let size = cross_size([a, b]);
    is_at_most(product(size, size), product(square, length))
}
