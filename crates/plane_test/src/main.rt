// Runs the tests of `plane` and prints what they answer; the file stdout beside src/ has what an independent program says (tools/plane_expected.py).
#![tactic(auto)]

ghost use Rattle.plane.specs.Side.{point, Near, AllNear};

use plane::Containment;
use std::io;

// A point at the coordinate limits: both bits of n are signs, of x then of y.
fn far_point(n: u64) -> [i64; 2]
    ensures { Near (point result) }
{
    match n {
        0 => [536870912, 536870912],
        1 => [-536870912, 536870912],
        2 => [536870912, -536870912],
        _ => [-536870912, -536870912],
    }
}

// A point of the small grid from −2 to 2.
fn small_point(n: u64) -> [i64; 2]
    ensures { Near (point result) }
{
    let x = n % 5;
    let y = n / 5 % 5;
    [x as i64 - 2, y as i64 - 2]
}

fn print_beside(rt: &impl Print, p: [[i64; 2]; 3]) -> io::Result<()>
    requires { AllNear p }
{
    rt.print(match plane::beside(p) {
        Containment::Inside => " inside\n",
        Containment::Border => " border\n",
        Containment::Outside => " outside\n",
    })
}

fn print_side(rt: &impl Print, p: [[i64; 2]; 3]) -> io::Result<()>
    requires { AllNear p }
{
    rt.print(plane::side_value(p))?;
    rt.print(if plane::is_right(p) {
        " right"
    } else {
        " wrong"
    })?;
    print_beside(rt, p)
}

// Arrangement n of the largest coordinates of three points: the six signs are the bits of n.
fn far_side(rt: &impl Print, n: u64) -> io::Result<()> {
    print_side(
        rt,
        [
            far_point(n % 4),
            far_point(n / 4 % 4),
            far_point(n / 16 % 4),
        ],
    )
}

// A small side, in each of its directions, against point n of the grid.
fn small_side(rt: &impl Print, n: u64) -> io::Result<()> {
    print_side(rt, [small_point(0), small_point(18), small_point(n)])?;
    print_side(rt, [small_point(18), small_point(0), small_point(n)])
}

fn main(rt: HostRuntime) -> io::Result<()> {
    for n in 0..64 {
        far_side(&rt, n)?;
    }
    for n in 0..25 {
        small_side(&rt, n)?;
    }
    Ok(())
}
