// The door setting: bit i is one while door i is shut (document 01, "Side value and plan check").
#![tactic(auto)]

ghost use Rattle.std.specs.Prelude.{◌<◌, ◌≤◌, not, ◌≡◌, ltb, length};
ghost use Rattle.cells.specs.Least.{least};
ghost use Rattle.cells.specs.Lists.{tabled, face_count};
ghost use Rattle.cells.specs.Backed.{Backed};
ghost use Rattle.setting.specs.Setting.{shut as Setting·shut, with_shut, with_open, wrong_setting, bars as Setting·bars, ends};

use limits::Plan;

// Is door i shut?
pub fn is_shut(setting: u64, i: usize) -> bool
    requires { i < 64 }
    ensures { result ≡ Setting·shut setting i }
{
    let mask = 1 << i;
    setting & mask != 0
}

// The setting with door i shut.
pub fn shut(setting: u64, i: usize) -> u64
    requires { i < 64 }
    ensures { result ≡ with_shut setting i }
{
    let mask = 1 << i;
    setting | mask
}

// The setting with door i open.
pub fn open(setting: u64, i: usize) -> u64
    requires { i < 64 }
    ensures { result ≡ with_open setting i }
{
    let mask = 1 << i;
    setting & !mask
}

// Is a bit at or above the door count one? For 64 doors there is no such bit, and a shift by the word's width is none.
#[tactic(auto, using(crate::proofs::Settings::none_wrong_for_64, crate::proofs::Settings::wrong_by_the_shift))]
pub fn is_wrong(setting: u64, doors: usize) -> bool
    requires { doors ≤ 64 }
    ensures { result ≡ wrong_setting setting doors }
{
    doors < 64 && setting >> doors != 0
}

// Is door e shut, and does it name face f or face g?
#[tactic(auto, unfolding(crate::specs::Setting::bars, cells::specs::Check::names))]
fn bars(doors: &[u16], setting: u64, f: usize, g: usize, e: usize) -> bool
    requires { (e < length doors.now) × (e < 64) }
    ensures { result ≡ Setting·bars doors.now setting f g e }
{
    let d = doors[e] as usize;
    is_shut(setting, e) && (d == f || d == g)
}

// Does a door that is shut name face f or face g?
fn is_barred(doors: &[u16], setting: u64, f: usize, g: usize) -> bool
    requires { length doors.now ≤ 64 }
    ensures { result ≡ ltb (least (Setting·bars doors.now setting f g) (length doors.now) 0) (length doors.now) }
{
    (0..doors.len()).any(|e| bars(doors, setting, f, g, e))
}

// Is face f free: does sight pass it under the setting? The face on its other side is read from the table of them.
pub fn is_free(
    faces: &[u16],
    firsts: &[u16],
    backs: &[u16],
    doors: &[u16],
    setting: u64,
    f: usize,
) -> bool
    requires backed { Backed (tabled faces.now firsts.now) backs.now }
    requires f_bound { f < face_count (tabled faces.now firsts.now) }
    requires doors_len_bound { length doors.now ≤ 64 }
    ensures { result ≡ not (ends (tabled faces.now firsts.now) doors.now setting f) }
{
    faces[2 * f + 1] != Plan::WALL && !is_barred(doors, setting, f, backs[f] as usize)
}
