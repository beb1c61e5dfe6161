// A job: a set worked one strip a step, its density changed while it works (document 02, Paper 9).
//
// The record is lent to each call and updated there: `step` and `change_density` take it by `&mut`, and call a function
// that does the work by value. Making a job runs every check before the strips but 2, which is checked at each step.
// Any record, density and scratch may be handed in.
#![tactic(auto)]

ghost use Rattle.std.specs.Prelude.{◌≡◌, length, ◌<◌, ◌^◌, false};
ghost use Rattle.strips.specs.Strips.{Room, onward_of};
ghost use Rattle.refusals.specs.Calls.{Does};
ghost use Rattle.jobs.specs.Jobs.{step_run, held_of, points_of, outline_of, figures_row, plain_row, outcome_of, more};
ghost use Rattle.jobs.specs.Jobs.{ended, ended_by, after_strip, next_strip, is_short, step_after, stepped_on, StepsTo};
ghost use Rattle.jobs.specs.Jobs.{with_density, taken, kept, IsReplied, change_of, making_check, made_of, count_below};
ghost use Rattle.jobs.specs.Jobs.{progress_of};
ghost use Rattle.jobs.specs.Lent.{StepsLent, ChangesLent};

use figures::{Figures, bare_figures};
use fins::FinSet;
use halving::{Integral, Totals};
use limits::OUTLINE_NUMBERS;
use materials::Density;
use refusals::{Refusal, Verdict, first_refusal};
use strips::Advance;

// A copy of an outline: room for the most points, and how many of the numbers are the outline's.
#[derive(Clone, Copy)]
pub struct Points {
    pub numbers: [f64; OUTLINE_NUMBERS],
    pub count: usize,
}

// A job: the set, its own copy of the outline and L; which strip is next, by the place of its lower end among all
// heights; the totals over the strips worked; and, once it has ended, its answer. Lent memory has the places of an
// answer before that too, so this is no Option.
#[derive(Clone, Copy)]
pub struct Job {
    pub set: FinSet,
    pub points: Points,
    pub limit: usize,
    pub next: usize,
    pub totals: Totals,
    pub ended: bool,
    pub outcome: Figures,
}

// What a step answers: 2, as its scratch was short; that more strips remain; or that the job has ended, and then the
// job's outcome is the answer.
#[derive(Clone, Copy)]
pub enum Progress {
    Short,
    More,
    Ended,
}

// How far a job is: how many of its strips are worked, how many it has, and the intervals and samples so far.
#[derive(Clone, Copy)]
pub struct JobProgress {
    pub worked: usize,
    pub strips: usize,
    pub intervals: usize,
    pub samples: usize,
}

// What a making, a submission or a change of density answers: taken where the verdict accepts, else its number with the
// samples so far. It is no Result, since the samples are told with a refusal too.
#[derive(Clone, Copy)]
pub struct Reply {
    pub verdict: Verdict,
    pub samples: usize,
}

// An answer as its number, 0 where it has figures, and its figures, zeros where it has none.
#[derive(Clone, Copy)]
pub struct Row {
    pub number: usize,
    pub figures: Figures,
}

// A job as a step leaves it, and what the step answers.
#[derive(Clone, Copy)]
pub struct JobStep {
    pub job: Job,
    pub progress: Progress,
}

// A job as it is made, or as a change of density leaves it, and what that call answers.
#[derive(Clone, Copy)]
pub struct JobReply {
    pub job: Job,
    pub reply: Reply,
}

// Returns how many numbers of an outline are kept: no more than an outline may have.
fn held(count: usize) -> usize
    ensures { result ≡ held_of count }
{
    count.min(OUTLINE_NUMBERS)
}

// Returns a job's own copy of an outline, with zeros after it.
fn copied(points: &[f64]) -> Points
    ensures { result ≡ points_of points.now }
{
    let n = held(points.len());
    let mut numbers = [0.0; OUTLINE_NUMBERS];
    numbers[..n].copy_from_slice(&points[..n]);
    Points { numbers, count: n }
}

// Returns the row of figures, with number 0, or of a refusal, with its number.
pub fn figures_row(figures: Figures) -> Row
    ensures { result ≡ figures_row figures }
{
    let verdict = figures.verdict;
    match verdict {
        Ok(()) => Row { number: 0, figures },
        Err(refusal) => Row {
            number: refusals::number(refusal),
            figures,
        },
    }
}

// Returns the row of an answer that has no figures; its number is above all of the refusals'.
pub fn plain_row(number: usize) -> Row
    ensures { result ≡ plain_row number }
{
    let figures = bare_figures(Ok(()), 0);
    Row { number, figures }
}

// Returns the job with more strips to come after these totals.
fn go_on(job: Job, totals: Totals, next: usize) -> Job
    ensures { result ≡ more job totals next }
{
    let set = job.set;
    let points = job.points;
    let outcome = job.outcome;
    Job {
        set,
        points,
        limit: job.limit,
        next,
        totals,
        ended: false,
        outcome,
    }
}

// Returns the job ended with these figures; no strip begins at its place `next`.
fn end(job: Job, totals: Totals, next: usize, outcome: Figures) -> Job
    ensures { result ≡ ended job totals next outcome }
{
    let set = job.set;
    let points = job.points;
    Job {
        set,
        points,
        limit: job.limit,
        next,
        totals,
        ended: true,
        outcome,
    }
}

// Returns the answer of a set whose strips add up to these totals. Count and density are checked again, since a record
// that was not made by `make` is taken too.
fn conclude(set: FinSet, points: &[f64], total: Integral) -> Figures
    ensures { result ≡ outcome_of set points.now total }
{
    let density = set.density;
    let verdict = first_refusal(
        limits::check_count(set.count),
        materials::check_density(density),
    );
    match verdict {
        Ok(()) => figures::concluded_at(set, points, total),
        Err(refusal) => {
            let totals = total.totals;
            bare_figures(Err(refusal), totals.samples)
        }
    }
}

// Works the strip of a set that begins at the height at a place, if there is one, and adds it to the totals.
fn work_from(
    set: FinSet,
    points: &[f64],
    next: usize,
    limit: usize,
    totals: Totals,
    scratch: &mut [f64],
) -> Advance
    requires { Room limit (length scratch.old) }
    ensures { Does (onward_of (step_run set points.now limit) next totals)
        result scratch.old scratch.new }
{
    let planform = set.planform;
    let section = set.cross_section;
    let span_m = planforms::span_m(planform, points);
    let integrand = integrands::plate_integrand(
        planform,
        points,
        span_m,
        section,
        set.thickness_m,
        set.body_radius_m,
    );
    strips::work_next(scratch, integrand, points, span_m, next, limit, totals)
}

// Works the next strip of a job, and adds it to the job's totals.
fn work_next(job: Job, scratch: &mut [f64]) -> Advance
    requires { Room job.limit (length scratch.old) }
    ensures { Does (next_strip job) result scratch.old scratch.new }
{
    let set = job.set;
    let points = job.points;
    let numbers = points.numbers;
    let n = held(points.count);
    let totals = job.totals;
    work_from(set, &numbers[..n], job.next, job.limit, totals, scratch)
}

// Returns the job once its next strip is worked: it goes on, or it ends with its last strip or one refused.
fn after_strip(job: Job, onward: Advance) -> Job
    ensures { result ≡ after_strip job onward }
{
    let total = onward.total;
    let ending = total.ending;
    let totals = total.totals;
    let accepted = strips::is_accepted(ending);
    if accepted & onward.more {
        return go_on(job, totals, onward.next);
    }
    let set = job.set;
    let points = job.points;
    let numbers = points.numbers;
    let n = held(points.count);
    let figures = conclude(set, &numbers[..n], total);
    end(job, totals, onward.next, figures)
}

// Ends a job with a refusal: with 1, for a limit outside its limits, which no job that was made has.
fn end_refused(job: Job, refusal: Refusal) -> Job
    ensures { result ≡ ended_by job refusal }
{
    let totals = job.totals;
    let outcome = bare_figures(Err(refusal), totals.samples);
    end(job, totals, job.next, outcome)
}

// Works a step that is lent enough scratch. A job that has ended stays as it is.
pub fn step_in_room(job: Job, scratch: &mut [f64]) -> Job
    requires { is_short job.ended job.limit (length scratch.old) ≡ false }
    ensures { Does (stepped_on job) result scratch.old scratch.new }
{
    if job.ended {
        return job;
    }
    let verdict = limits::check_limit(job.limit);
    match verdict {
        Ok(()) => {
            let onward = work_next(job, scratch);
            after_strip(job, onward)
        }
        Err(refusal) => end_refused(job, refusal),
    }
}

// Tells whether a step of a job is lent too little scratch: a job that has ended needs none, and where L itself is
// refused, that comes first.
pub fn is_short(ended: bool, limit: usize, scratch_len: usize) -> bool
    ensures { result ≡ is_short ended limit scratch_len }
{
    let no_limit = limits::check_limit(limit).is_err();
    let few = limits::check_scratch(limit, scratch_len).is_err();
    !ended & (!no_limit & few)
}

fn step_after(ended: bool) -> Progress
    ensures { result ≡ step_after ended }
{
    if ended {
        return Progress::Ended;
    }
    Progress::More
}

// Works one step of a job by value.
pub fn step_by_value(job: Job, scratch: &mut [f64]) -> JobStep
    ensures { StepsTo job scratch.old result scratch.new }
{
    if is_short(job.ended, job.limit, scratch.len()) {
        let progress = Progress::Short;
        return JobStep { job, progress };
    }
    let job = step_in_room(job, scratch);
    let progress = step_after(job.ended);
    JobStep { job, progress }
}

fn with_density(set: FinSet, density: Density) -> FinSet
    ensures { result ≡ with_density set density }
{
    let planform = set.planform;
    let cross_section = set.cross_section;
    let tab = set.tab;
    let fillet = set.fillet;
    FinSet {
        count: set.count,
        planform,
        thickness_m: set.thickness_m,
        cross_section,
        tab,
        fillet,
        cant_rad: set.cant_rad,
        base_angle_rad: set.base_angle_rad,
        body_radius_m: set.body_radius_m,
        density,
    }
}

// Takes a density: the sums are per unit of it, so nothing else changes.
fn take_density(job: Job, density: Density) -> JobReply
    ensures { result ≡ taken job density }
{
    let set = job.set;
    let set = with_density(set, density);
    let points = job.points;
    let totals = job.totals;
    let outcome = job.outcome;
    let job = Job {
        set,
        points,
        limit: job.limit,
        next: job.next,
        totals,
        ended: false,
        outcome,
    };
    let verdict = Ok(());
    let reply = Reply {
        verdict,
        samples: 0,
    };
    JobReply { job, reply }
}

// Keeps the density, and answers the refusal with the samples taken so far.
fn keep_density(job: Job, refusal: Refusal) -> JobReply
    ensures { result ≡ kept job refusal }
{
    let verdict = Err(refusal);
    let totals = job.totals;
    let reply = Reply {
        verdict,
        samples: totals.samples,
    };
    JobReply { job, reply }
}

// Changes the density of a job by value: the answer is taken or 12, and after the job's end always 12.
pub fn change_by_value(job: Job, density: Density) -> JobReply
    ensures { IsReplied result (change_of job density) }
{
    let over = job.ended;
    if over {
        return keep_density(job, Refusal::Density);
    }
    let verdict = materials::check_density(density);
    match verdict {
        Ok(()) => take_density(job, density),
        Err(refusal) => keep_density(job, refusal),
    }
}

// Runs every check before the strips but 2.
#[tactic(auto, unfolding(crate::specs::Jobs::making_check))]
fn check_making(set: FinSet, points: &[f64], limit: usize) -> Verdict
    ensures { result ≡ making_check set points.now limit }
{
    limits::check_limit(limit)?;
    fins::check_own(set, points)
}

// Makes a job: the answer is taken or the first refusal, with which the record has ended.
#[tactic(auto, using(refusals::proofs::Given::is_answer), unfolding(crate::specs::Jobs::made_of))]
pub fn make(set: FinSet, points: &[f64], limit: usize) -> JobReply
    ensures { IsReplied result (made_of set points.now limit) }
{
    let verdict = check_making(set, points, limit);
    let ended = verdict.is_err();
    let outcome = bare_figures(verdict, 0);
    let points = copied(points);
    let totals = Totals {
        value: [0.0; 7],
        intervals: 0,
        samples: 0,
    };
    let job = Job {
        set,
        points,
        limit,
        next: 0,
        totals,
        ended,
        outcome,
    };
    let reply = Reply {
        verdict,
        samples: 0,
    };
    JobReply { job, reply }
}

// Works one step of a lent job.
pub fn step(job: &mut Job, scratch: &mut [f64]) -> Progress
    ensures { StepsLent job.old scratch.old result job.new scratch.new }
{
    let s = step_by_value(*job, scratch);
    *job = s.job;
    s.progress
}

// Changes the density of a lent job.
pub fn change_density(job: &mut Job, density: Density) -> Reply
    ensures { ChangesLent job.old density result job.new }
{
    let s = change_by_value(*job, density);
    *job = s.job;
    s.reply
}

// Returns how many of some heights lie below h.
fn count_below(heights: &[f64], h: f64) -> usize
    requires { length heights.now < 2 ^ 32 }
    ensures { result ≡ count_below h heights.now }
{
    heights.iter().filter(|height| **height < h).count()
}

// Returns how far a job is: as many strips are worked as break heights lie below the height at its place `next`.
pub fn progress_of(job: Job) -> JobProgress
    ensures { result ≡ progress_of job }
{
    let set = job.set;
    let planform = set.planform;
    let points = job.points;
    let numbers = points.numbers;
    let n = held(points.count);
    let next = breaks::height_at(planform, &numbers[..n], job.next);
    let breaks = breaks::break_heights(planform, &numbers[..n]);
    let count = breaks.count;
    let heights = breaks.heights;
    let worked = count_below(&heights[..count], next);
    let totals = job.totals;
    JobProgress {
        worked,
        strips: count - 1,
        intervals: totals.intervals,
        samples: totals.samples,
    }
}
