// The integrals over the strips of a set (fins.rs, the loop of `fin_integrals` and of `geometry`; document 01, "Piece
// and tally").
//
// Neighbouring break heights bound a strip, and its ends are divided by the scale. Strips are worked upward, to the
// last or the first that is not accepted, each over the scratch as the one before left it. Values, intervals and
// samples are added up from zero. How the last strip worked ended is told beside them; a limit that is not 1 to
// `MOST_PIECES`, and a scratch without room for that many pieces, are the caller's to refuse.
#![tactic(auto)]

ghost use Rattle.std.specs.Prelude.{◌≡◌, ◌+◌, ◌-◌, ◌^◌, ◌<◌, length};
ghost use Rattle.refusals.specs.Calls.{Does};
ghost use Rattle.planforms.specs.Planforms.{span_of};
ghost use Rattle.strips.specs.Strips.{is_accepted, with_strip, in_words, strip_between, WorksStrip, Room, run_between};
ghost use Rattle.strips.specs.Strips.{run_of, step_run_of, onward_of, Runs};

use halving::{Integral, NotConverged, Totals};
use integrands::Integrand;
use std::num::wrapping_add_usize;

// The totals after a strip, where the next one begins, and whether there is a next. `next` is no Option: it is read
// where `more` is false too, since a job that has ended keeps it.
#[derive(Clone, Copy)]
pub struct Advance {
    pub total: Integral,
    pub next: usize,
    pub more: bool,
}

pub fn is_accepted(ending: Result<(), NotConverged>) -> bool
    ensures { result ≡ is_accepted ending }
{
    ending.is_ok()
}

// Returns the totals with one strip more, and that strip's ending. The counts wrap, so that any totals may be handed
// in.
fn add_strip(totals: Totals, strip: Integral) -> Integral
    ensures { result ≡ in_words (with_strip totals strip) }
{
    let ending = strip.ending;
    let more = strip.totals;
    let x = totals.value;
    let y = more.value;
    let value = pieces::plus(x, y);
    let totals = Totals {
        value,
        intervals: wrapping_add_usize(totals.intervals, more.intervals),
        samples: wrapping_add_usize(totals.samples, more.samples),
    };
    Integral { ending, totals }
}

// Works one strip, between the break heights i and i + 1, and returns what it makes of the totals so far.
fn work_strip(
    scratch: &mut [f64],
    integrand: Integrand,
    points: &[f64],
    heights: &[f64],
    i: usize,
    limit: usize,
    totals: Totals,
) -> Integral
    requires { Room limit (length scratch.old) × (i + 1 < length heights.now) × (length heights.now < 2 ^ 32) }
    ensures { WorksStrip (strip_between integrand points.now limit heights.now i) totals
        scratch.old result scratch.new }
{
    let scale = integrand.scale;
    let lower = heights[i] / scale;
    let upper = heights[i + 1] / scale;
    let strip = halving::integrate(scratch, integrand, points, lower, upper, limit);
    add_strip(totals, strip)
}

// Works the strip of the integrand's planform from the height at a place on, where there is one: for a step of a job
// (document 02, Paper 9), which has worked the span already.
pub fn work_next(
    scratch: &mut [f64],
    integrand: Integrand,
    points: &[f64],
    span: f64,
    i: usize,
    limit: usize,
    totals: Totals,
) -> Advance
    requires { Room limit (length scratch.old) × (span ≡ span_of integrand.planform points.now) }
    ensures { Does (onward_of (step_run_of integrand points.now limit) i totals)
        result scratch.old scratch.new }
{
    let planform = integrand.planform;
    let lower = breaks::height_at(planform, points, i);
    let found = breaks::least_above(planform, points, span, lower);
    let upper = found.height;
    if lower < upper {
        let ends = [lower, upper];
        let total = work_strip(scratch, integrand, points, &ends, 0, limit, totals);
        return Advance {
            total,
            next: found.place,
            more: (upper < span) | (upper < 0.0),
        };
    }
    let ending = Ok(());
    let total = Integral { ending, totals };
    Advance {
        total,
        next: i,
        more: false,
    }
}

// Works the strips between the break heights, upward, with at most limit pieces to a strip, and returns their totals.
fn work_upward(
    scratch: &mut [f64],
    integrand: Integrand,
    points: &[f64],
    heights: &[f64],
    limit: usize,
) -> Integral
    requires { Room limit (length scratch.old) × (length heights.now < 2 ^ 32) }
    ensures { Runs (run_between integrand points.now limit heights.now) scratch.old result
        scratch.new }
{
    let ending = Ok(());
    let totals = Totals {
        value: [0.0; 7],
        intervals: 0,
        samples: 0,
    };
    let mut total = Integral { ending, totals };
    for i in 1..heights.len() {
        let totals = total.totals;
        total = work_strip(scratch, integrand, points, heights, i - 1, limit, totals);
        let ending = total.ending;
        if !is_accepted(ending) {
            return total;
        }
    }
    total
}

// Works the strips between the break heights of the integrand's planform, over a lent scratch with room for limit
// pieces, and returns their totals.
pub fn work_strips(
    scratch: &mut [f64],
    integrand: Integrand,
    points: &[f64],
    limit: usize,
) -> Integral
    requires { Room limit (length scratch.old) }
    ensures { Runs (run_of integrand points.now limit) scratch.old result scratch.new }
{
    let planform = integrand.planform;
    if breaks::is_one_strip(planform) {
        let heights = [0.0, planforms::span_m(planform, points)];
        return work_upward(scratch, integrand, points, &heights, limit);
    }
    let breaks = breaks::break_heights(planform, points);
    let n = breaks.count;
    let heights = breaks.heights;
    work_upward(scratch, integrand, points, &heights[..n], limit)
}
