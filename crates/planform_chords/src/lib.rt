// The chords of a planform at a height, for the outline view (document 02, Paper 1): the planform is checked as an
// area's is, and the ends of its chords are listed, start and end of each in order, in metres. Any f64 may be the
// height.
#![tactic(auto)]

ghost use Rattle.std.specs.Prelude.{◌≡◌, ◌≤◌, length, take};
ghost use Rattle.sorting.specs.Sorted.{over};
ghost use Rattle.limits.specs.Limits.{most_points};
ghost use Rattle.chords.specs.Chords.{outline_crossings, ends_of, paired, chords_at};
ghost use Rattle.planform_chords.specs.PlanformChords.{Listed, chords_call, IsChordList};

use chords::Chords;
use planforms::Planform;
use refusals::{Refusal, Verdict};

// How many numbers a list must have room for: each edge of an outline is crossed at most once.
pub const ROOM: usize = limits::MOST_POINTS;

// Checks a planform, writes the ends of its chords at height h over the start of `ends` and returns how many chords
// there are. Where there is none, `ends` stays as it is; a list without room for `ROOM` numbers is the caller's to
// refuse.
pub fn chords_at(
    planform: Planform,
    points: &[f64],
    h: f64,
    ends: &mut [f64],
) -> Result<usize, Refusal>
    requires { most_points ≤ length ends.old }
    ensures chord_list { IsChordList result (chords_call planform points.now h).answer }
    ensures ends_after { ends.new ≡ (chords_call planform points.now h).leaves ends.old }
{
    outlines::check_planform(planform, points)?;
    let found = chords_found(planform, points, h);
    Ok(write_chords(found, points, h, ends))
}

// Returns the chords of any planform; an outline's crossings are always listed. `chords::chords_at`, which finds the
// one chord of most heights with no list, has no other caller than the loop over the samples, so that the compiler puts
// it there.
#[tactic(auto, using(chords::proofs::Answer::answered), unfolding(chords::specs::Chords::ends_at))]
fn chords_found(planform: Planform, points: &[f64], h: f64) -> Chords
    ensures { paired (ends_of result points.now h) ≡ chords_at planform points.now h }
{
    match planform {
        Planform::Trapezoid {
            root_chord_m,
            tip_chord_m,
            span_m,
            sweep_m,
        } => chords::trapezoid_chord(root_chord_m, tip_chord_m, span_m, sweep_m, h),
        Planform::Ellipse {
            root_chord_m,
            span_m,
        } => chords::ellipse_chord(root_chord_m, span_m, h),
        Planform::Outline => Chords::Several,
    }
}

// Writes the chords found over the start of the list, and returns how many there are.
#[tactic(auto, using(crate::proofs::Answer::written), unfolding(chords::specs::Chords::paired))]
fn write_chords(found: Chords, points: &[f64], h: f64, ends: &mut [f64]) -> usize
    requires { most_points ≤ length ends.old }
    ensures { Listed (paired (ends_of found points.now h)) ends.old ends.new result }
{
    match found {
        Chords::Nothing => 0,
        Chords::One { start_m, end_m } => {
            ends[0] = start_m;
            ends[1] = end_m;
            1
        }
        Chords::Several => write_several(points, h, ends),
    }
}

fn write_several(points: &[f64], h: f64, ends: &mut [f64]) -> usize
    requires { most_points ≤ length ends.old }
    ensures { Listed (paired (outline_crossings points.now h)) ends.old ends.new result }
{
    let mut xs = [0.0; ROOM];
    let count = chords::outline_crossings(points, h, &mut xs) / 2;
    write_first(&xs, 2 * count, ends);
    count
}

// Writes the first n of xs over the start of the list.
fn write_first(xs: &[f64], n: usize, ends: &mut [f64])
    requires { (n ≤ length xs.now) × (n ≤ length ends.old) }
    ensures { ends.new ≡ over (take n xs.now) ends.old }
{
    ends[..n].copy_from_slice(&xs[..n]);
}
