// A stand as the tablet gives it, and the whole millimetres that it is.
ghost use Rattle.std.specs.Prelude.{◌≡◌};
ghost use Rattle.stand.specs.declared.spot.Stand.TheVariants.{Offset};
ghost use Rattle.cells.specs.Sound.{CornersNear};
ghost use Rattle.stand.specs.Spot.{whole_point, within_limits, stood};

use cells::corner;
use limits::Plan;
use number::whole_millimetres;

// A stand is a point, or an offset from a corner, each with two doubles in millimetres.
#[derive(Clone, Copy)]
pub enum Stand {
    Point(f64, f64),
    Offset(u16, f64, f64),
}

fn whole_spot(x: f64, y: f64) -> Option<(i64, i64)>
    ensures { result ≡ whole_point x y }
{
    let u = whole_millimetres(x)?;
    let v = whole_millimetres(y)?;
    Some((u, v))
}

// The sums of an offset must lie within the limits too.
#[tactic(auto, unfolding(crate::specs::Spot::within_limits, cells::specs::Check::outside))]
fn bounded(x: i64, y: i64) -> Option<(i64, i64)>
    ensures { result ≡ within_limits x y }
{
    let limit = Plan::COORDINATE as i64;
    let limits = -limit..=limit;
    if !limits.contains(&x) || !limits.contains(&y) {
        return None;
    }
    Some((x, y))
}

fn offset_spot(corners: &[i32], i: usize, dx: f64, dy: f64) -> Option<(i64, i64)>
    requires { CornersNear corners.now }
    ensures { result ≡ stood corners.now (Offset i dx dy) }
{
    if corners.len() / 2 <= i {
        return None;
    }
    let (u, v) = whole_spot(dx, dy)?;
    let from = corner::at(corners, i);
    let x = from[0] + u;
    let y = from[1] + v;
    bounded(x, y)
}

// The stand in whole millimetres, on a plan whose corners were checked.
pub fn stand_spot(corners: &[i32], stand: Stand) -> Option<(i64, i64)>
    requires { CornersNear corners.now }
    ensures { result ≡ stood corners.now stand }
{
    match stand {
        Stand::Point(x, y) => whole_spot(x, y),
        Stand::Offset(corner, dx, dy) => offset_spot(corners, corner as usize, dx, dy),
    }
}
