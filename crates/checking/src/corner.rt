// Corners: coordinates within the limits.
ghost use Rattle.std.specs.Prelude.{◌<◌, ◌≡◌};
ghost use Rattle.cells.specs.Least.{least, before};
ghost use Rattle.cells.specs.Lists.{corner_count};
ghost use Rattle.cells.specs.Check.{outside, wrong_corner};

use crate::Plan;

#[tactic(auto, unfolding(cells::specs::Check::outside))]
fn is_outside(z: i32) -> bool
    ensures { result ≡ outside z }
{
    z < -Plan::COORDINATE || Plan::COORDINATE < z
}

#[tactic(auto, unfolding(cells::specs::Check::wrong_corner))]
fn is_wrong(corners: &[i32], i: usize) -> bool
    requires { i < corner_count corners.now }
    ensures { result ≡ wrong_corner corners.now i }
{
    is_outside(corners[2 * i]) || is_outside(corners[2 * i + 1])
}

// The least corner with a coordinate outside the limits.
pub fn least_wrong(corners: &[i32]) -> Option<usize>
    ensures { result ≡ before (corner_count corners.now) (least (wrong_corner corners.now) (corner_count corners.now) 0) }
{
    (0..corners.len() / 2).find(|&i| is_wrong(corners, i))
}
