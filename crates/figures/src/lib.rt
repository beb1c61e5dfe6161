// A set's figures and a planform's area: every check, then the strips over the lent scratch, then one fin's body,
// turned and joined (fins.rs, `FinSet::mass_properties` and `FinPlanform::geometry`). Any set, points, limit and
// scratch may be handed in.
#![tactic(auto)]

ghost use Rattle.std.specs.Prelude.{◌≡◌, ◌≤◌, length};
ghost use Rattle.refusals.specs.Calls.{Does};
ghost use Rattle.fins.specs.Fins.{set_check, area_check};
ghost use Rattle.figures.specs.Figures.{bare_figures, size_check, conclusion_of, concluded_set, concluded_at};
ghost use Rattle.figures.specs.Figures.{worked_set};
ghost use Rattle.figures.specs.Areas.{refused_area, concluded_area, worked_planform};
ghost use Rattle.figures.specs.Answers.{SetAnswers, AreaAnswers};

use bodies::Body;
use fins::FinSet;
use halving::{Integral, NotConverged};
use planforms::Planform;
use refusals::{Refusal, Verdict};

// A set's body with the totals of intervals and samples. A refusal carries zero figures, no intervals, and the samples
// taken so far. Verdict and body stand in no Result, since lent memory holds each by itself, as C wrote them.
#[derive(Clone, Copy)]
pub struct Figures {
    pub verdict: Verdict,
    pub body: Body,
    pub intervals: usize,
    pub samples: usize,
}

// A planform's area and centroid with the totals of intervals and samples. A refusal carries zero figures, no
// intervals, and the samples taken so far. It is built as `Figures` is, since one claim is about both.
#[derive(Clone, Copy)]
pub struct Area {
    pub verdict: Verdict,
    pub area_m2: f64,
    pub centroid_x_m: f64,
    pub centroid_span_m: f64,
    pub intervals: usize,
    pub samples: usize,
}

// Returns a verdict with zero figures, no intervals, and these samples.
pub fn bare_figures(verdict: Verdict, samples: usize) -> Figures
    ensures { result ≡ bare_figures verdict samples }
{
    let body = Body::ZERO;
    Figures {
        verdict,
        body,
        intervals: 0,
        samples,
    }
}

// Refuses an area or a volume that is at most 0 by 8; a NaN passes.
fn check_size(size: f64) -> Verdict
    ensures { result ≡ size_check size }
{
    refusals::refuse_when(size <= 0.0, Refusal::NoArea)
}

// Returns what the last strip worked ended in, or else whether the size that the strips add up to is refused.
fn conclusion(ending: Result<(), NotConverged>, size: f64) -> Verdict
    ensures { result ≡ conclusion_of ending size }
{
    refusals::first_refusal(halving::verdict_of(ending), check_size(size))
}

// Returns the figures of a set whose strips add up to these totals, or 13 or 8: the one place where this is decided.
// `scale_m` is what every length of a strip was divided by.
fn concluded(set: FinSet, root_chord_m: f64, scale_m: f64, total: Integral) -> Figures
    requires { set.count ≤ 32 }
    ensures { result ≡ concluded_set set root_chord_m scale_m total }
{
    let ending = total.ending;
    let totals = total.totals;
    let value = totals.value;
    let v = plates::integrals(set, scale_m, value);
    let verdict = conclusion(ending, v[0]);
    match verdict {
        Ok(()) => {
            let fin = plates::fin(set, root_chord_m, v);
            let body = rings::ring(fin, set.base_angle_rad, set.count);
            let verdict = Ok(());
            Figures {
                verdict,
                body,
                intervals: totals.intervals,
                samples: totals.samples,
            }
        }
        Err(refusal) => bare_figures(Err(refusal), totals.samples),
    }
}

// Returns what `concluded` returns, where root chord and scale are not known yet.
pub fn concluded_at(set: FinSet, points: &[f64], total: Integral) -> Figures
    requires { set.count ≤ 32 }
    ensures { result ≡ concluded_at set points.now total }
{
    let planform = set.planform;
    let scale_m = integrands::scale_m(planform, points);
    let root_chord_m = planforms::root_chord_m(planform, points);
    concluded(set, root_chord_m, scale_m, total)
}

// Works the strips of an accepted set, and returns its figures.
fn work_set(set: FinSet, points: &[f64], limit: usize, scratch: &mut [f64]) -> Figures
    requires { set_check set points.now limit (length scratch.old) ≡ Ok tt }
    ensures { Does (worked_set set points.now limit) result scratch.old scratch.new }
{
    let planform = set.planform;
    let section = set.cross_section;
    let thickness_m = set.thickness_m;
    let body_radius_m = set.body_radius_m;
    let span_m = planforms::span_m(planform, points);
    let integrand = integrands::plate_integrand(
        planform,
        points,
        span_m,
        section,
        thickness_m,
        body_radius_m,
    );
    let root_chord_m = planforms::root_chord_m(planform, points);
    let total = strips::work_strips(scratch, integrand, points, limit);
    concluded(set, root_chord_m, integrand.scale, total)
}

// Returns a set's figures, worked over a lent scratch with room for `limit` pieces, or the first refusal.
pub fn mass_properties(set: FinSet, points: &[f64], limit: usize, scratch: &mut [f64]) -> Figures
    ensures { SetAnswers set points.now limit scratch.old result scratch.new }
{
    let verdict = fins::check_set(set, points, limit, scratch.len());
    match verdict {
        Ok(()) => work_set(set, points, limit, scratch),
        Err(refusal) => bare_figures(Err(refusal), 0),
    }
}

fn refused_area(refusal: Refusal, samples: usize) -> Area
    ensures { result ≡ refused_area refusal samples }
{
    let verdict = Err(refusal);
    Area {
        verdict,
        area_m2: 0.0,
        centroid_x_m: 0.0,
        centroid_span_m: 0.0,
        intervals: 0,
        samples,
    }
}

// Returns the area of a planform whose strips add up to these totals, or 13 or 8.
fn concluded_area(scale_m: f64, total: Integral) -> Area
    ensures { result ≡ concluded_area scale_m total }
{
    let ending = total.ending;
    let totals = total.totals;
    let value = totals.value;
    let area_m2 = value[0] * scale_m * scale_m;
    let verdict = conclusion(ending, area_m2);
    match verdict {
        Ok(()) => {
            let verdict = Ok(());
            Area {
                verdict,
                area_m2,
                centroid_x_m: scale_m * value[1] / value[0],
                centroid_span_m: scale_m * value[2] / value[0],
                intervals: totals.intervals,
                samples: totals.samples,
            }
        }
        Err(refusal) => refused_area(refusal, totals.samples),
    }
}

// Works the strips of an accepted planform, and returns its area.
fn work_area(planform: Planform, points: &[f64], limit: usize, scratch: &mut [f64]) -> Area
    requires { area_check planform points.now limit (length scratch.old) ≡ Ok tt }
    ensures { Does (worked_planform planform points.now limit)
        result scratch.old scratch.new }
{
    let integrand = integrands::area_integrand(planform, points);
    let total = strips::work_strips(scratch, integrand, points, limit);
    concluded_area(integrand.scale, total)
}

// Returns a planform's area and centroid, worked over a lent scratch with room for `limit` pieces, or the first
// refusal.
pub fn geometry(planform: Planform, points: &[f64], limit: usize, scratch: &mut [f64]) -> Area
    ensures { AreaAnswers planform points.now limit scratch.old result scratch.new }
{
    let verdict = fins::check_area(planform, points, limit, scratch.len());
    match verdict {
        Ok(()) => work_area(planform, points, limit, scratch),
        Err(refusal) => refused_area(refusal, 0),
    }
}
