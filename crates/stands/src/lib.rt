// Stands for a caller that has no enums (document 02, A1): three doubles each, the corner, x and y.
#![tactic(auto)]

ghost use Rattle.std.specs.Prelude.{◌/◌, ◌≤◌, ◌≡◌, length, take};
ghost use Rattle.limits.specs.Limits.{most_stands};
ghost use Rattle.stands.specs.Numbered.{stand_of, stands_of};

use limits::Plan;
use number::whole_millimetres;
use stand::spot::Stand;
use std::array;

// The corner that no plan has, for a first number that names none: the stand is then refused.
const NO_CORNER: u16 = 65535;

fn stand_of(corner: f64, x: f64, y: f64) -> Stand
    ensures { result ≡ stand_of corner x y }
{
    let Some(u) = whole_millimetres(corner) else {
        return Stand::Offset(NO_CORNER, x, y);
    };
    if u == -1 {
        return Stand::Point(x, y);
    }
    Stand::Offset(u16::try_from(u).unwrap_or(NO_CORNER), x, y)
}

// The first stands of the list, as many as a call takes; what stands behind them in the array means nothing.
pub fn stands_of(numbers: &[f64]) -> [Stand; Plan::MOST_STANDS]
    ensures { length numbers.now / 3 ≤ most_stands → take (length numbers.now / 3) result ≡ stands_of numbers.now }
{
    let (triples, _) = numbers.as_chunks::<3>();
    array::from_fn(|i| match triples.get(i) {
        Some(&[corner, x, y]) => stand_of(corner, x, y),
        None => Stand::Offset(NO_CORNER, 0.0, 0.0),
    })
}
