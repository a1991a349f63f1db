// Whole millimetres from doubles (document 01, "The stand").
#![tactic(auto)]

ghost use Rattle.std.specs.Prelude.{◌≡◌, true};
ghost use Rattle.number.specs.Whole.{is_finite, is_whole, is_within, whole};

use limits::Plan;

// Is x a whole number? It is where cutting off its fraction leaves x.
fn is_whole(x: f64) -> bool
    requires { is_finite x ≡ true }
    ensures { result ≡ is_whole x }
{
    x.trunc() == x
}

// Is x within the coordinate limits?
fn is_within(x: f64) -> bool
    ensures { result ≡ is_within x }
{
    let limit = Plan::COORDINATE as f64;
    -limit <= x && x <= limit
}

// What a double reads as: accepted exactly when x is a whole number of millimetres within the coordinate limits (document 01, "The stand").
// Only a double that passed the three tests becomes an integer, so nothing is cut off.
#[tactic(auto, unfolding(crate::specs::Whole::whole))]
pub fn whole_millimetres(x: f64) -> Option<i64>
    ensures { result ≡ whole x }
{
    if !x.is_finite() || !is_whole(x) || !is_within(x) {
        return None;
    }
    Some(std::num::truncating_f64_to_i64(x))
}
