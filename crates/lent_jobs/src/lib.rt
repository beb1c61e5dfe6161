// A job in lent memory: `JOB_NUMBERS` numbers and `JOB_COUNTS` counts, as C and Rust lend it (document 02, Paper 9;
// include/delvouzh.h).
//
// A call reads the job into a local variable, lends that to `jobs::step` or `jobs::change_density`, and writes it back
// over the start of both lists; a call that changes nothing writes nothing. The set's parts stand there by the
// library's numbers for them. Lists that no call wrote hold some job too: where a part's number is unknown, the job's
// set has no fins.
#![tactic(auto)]

ghost use Rattle.std.specs.Prelude.{◌≡◌, ◌+◌, ◌≤◌, length};
ghost use Rattle.std.proofs.Math.Seq.{paste};
ghost use Rattle.limits.specs.Limits.{outline_numbers};
ghost use Rattle.jobs.specs.Jobs.{step_row, progress_of};
ghost use Rattle.lent_jobs.specs.Memory.{flag, worked_numbers, counts_of, set_in, outcome_in, job_in};
ghost use Rattle.lent_jobs.specs.Lent.{Room, Holds, Makes, density_taken, Steps, Changes, StepsThere};
ghost use Rattle.lent_jobs.specs.Lent.{ChangesThere};

use bodies::{BODY_NUMBERS, Body};
use figures::Figures;
use fins::{FinSet, SET_COUNTS, SET_NUMBERS};
use halving::Totals;
use jobs::{Job, JobProgress, Points, Progress, Reply, Row};
use limits::OUTLINE_NUMBERS;
use materials::Density;
use refusals::{Refusal, Verdict};

// Where a job's numbers stand after its set's: the sums over the strips worked, the answer's body and the copy of the
// outline. `JOB_NUMBERS` is how many numbers a job has, `WORKED_NUMBERS` how many the sums and the body have.
const SUMS: usize = SET_NUMBERS;

const BODY: usize = SUMS + 7;

const OUTLINE: usize = BODY + BODY_NUMBERS;

pub const JOB_NUMBERS: usize = OUTLINE + OUTLINE_NUMBERS;

const WORKED_NUMBERS: usize = OUTLINE - SUMS;

// The number that stands for the answer "more remain", above every refusal's number.
pub const MORE: usize = 1000;

// Where a job's counts stand after its set's: L; the next strip; the totals of intervals and samples; whether the job
// has ended; of its answer the verdict's number and two values, the intervals and the samples; how many numbers of the
// copy are the outline's. `JOB_COUNTS` is how many counts a job has.
const LIMIT: usize = SET_COUNTS;

const NEXT: usize = LIMIT + 1;

const INTERVALS: usize = NEXT + 1;

const SAMPLES: usize = INTERVALS + 1;

const ENDED: usize = SAMPLES + 1;

const NUMBER: usize = ENDED + 1;

const FIRST: usize = NUMBER + 1;

const SECOND: usize = FIRST + 1;

const ANSWER_INTERVALS: usize = SECOND + 1;

const ANSWER_SAMPLES: usize = ANSWER_INTERVALS + 1;

const POINTS: usize = ANSWER_SAMPLES + 1;

pub const JOB_COUNTS: usize = POINTS + 1;

// Returns the count that stands for a test: 1 where it holds, else 0.
pub fn flag_of(holds: bool) -> usize
    ensures { result ≡ flag holds }
{
    if holds { 1 } else { 0 }
}

// Returns the seven sums over the strips worked, then the ten numbers of the answer's body.
fn worked_numbers(job: Job) -> [f64; WORKED_NUMBERS]
    ensures { result ≡ worked_numbers job }
{
    let totals = job.totals;
    let v = totals.value;
    let outcome = job.outcome;
    let body = outcome.body;
    let b = body.numbers();
    [
        v[0], v[1], v[2], v[3], v[4], v[5], v[6], b[0], b[1], b[2], b[3], b[4], b[5], b[6], b[7],
        b[8], b[9],
    ]
}

fn counts_of(job: Job) -> [usize; JOB_COUNTS]
    ensures { result ≡ counts_of job }
{
    let set = job.set;
    let s = fins::counts_of(set);
    let outcome = job.outcome;
    let verdict = outcome.verdict;
    let values = refusals::verdict_values(verdict);
    let points = job.points;
    let totals = job.totals;
    [
        s[0],
        s[1],
        s[2],
        s[3],
        s[4],
        s[5],
        job.limit,
        job.next,
        totals.intervals,
        totals.samples,
        flag_of(job.ended),
        refusals::verdict_number(verdict),
        values[0],
        values[1],
        outcome.intervals,
        outcome.samples,
        points.count,
    ]
}

// Writes `written` over a list from place `at` on.
fn write_over<T: Copy>(list: &mut [T], at: usize, written: &[T])
    requires { at + length written.now ≤ length list.old }
    ensures { list.new ≡ paste list.old at written.now (length written.now) }
{
    list[at..at + written.len()].copy_from_slice(written);
}

// Writes a job over the start of both lists.
pub fn write_job(numbers: &mut [f64], counts: &mut [usize], job: Job)
    requires { Room numbers.old counts.old }
    ensures { Holds job numbers.old counts.old numbers.new counts.new }
{
    let set = job.set;
    let of_set = fins::numbers_of(set);
    write_over(numbers, 0, &of_set[..SET_NUMBERS]);
    let worked = worked_numbers(job);
    write_over(numbers, SET_NUMBERS, &worked[..WORKED_NUMBERS]);
    let points = job.points;
    let outline = points.numbers;
    write_over(numbers, OUTLINE, &outline[..OUTLINE_NUMBERS]);
    let of_job = counts_of(job);
    write_over(counts, 0, &of_job[..JOB_COUNTS]);
}

fn read_set(numbers: &[f64], counts: &[usize]) -> FinSet
    requires { Room numbers.now counts.now }
    ensures { result ≡ set_in numbers.now counts.now }
{
    fins::known_set(fins::set_in(numbers, counts))
}

fn read_outline(numbers: &[f64]) -> [f64; OUTLINE_NUMBERS]
    requires { length numbers.now ≡ outline_numbers }
    ensures { result ≡ numbers.now }
{
    let mut outline = [0.0; OUTLINE_NUMBERS];
    outline.copy_from_slice(numbers);
    outline
}

// Returns the outcome of the job in the lists: its answer, once it has ended.
fn read_outcome(numbers: &[f64], counts: &[usize]) -> Figures
    requires { Room numbers.now counts.now }
    ensures { result ≡ outcome_in numbers.now counts.now }
{
    let verdict = refusals::verdict_of(counts[NUMBER], counts[FIRST], counts[SECOND]);
    let body = bodies::body_of(&numbers[BODY..OUTLINE]);
    Figures {
        verdict,
        body,
        intervals: counts[ANSWER_INTERVALS],
        samples: counts[ANSWER_SAMPLES],
    }
}

// Returns the job that the two lists hold.
pub fn read_job(numbers: &[f64], counts: &[usize]) -> Job
    requires { Room numbers.now counts.now }
    ensures { result ≡ job_in numbers.now counts.now }
{
    let set = read_set(numbers, counts);
    let outline = read_outline(&numbers[OUTLINE..JOB_NUMBERS]);
    let points = Points {
        numbers: outline,
        count: counts[POINTS],
    };
    let outcome = read_outcome(numbers, counts);
    let sums = &numbers[SUMS..BODY];
    let value = [
        sums[0], sums[1], sums[2], sums[3], sums[4], sums[5], sums[6],
    ];
    let totals = Totals {
        value,
        intervals: counts[INTERVALS],
        samples: counts[SAMPLES],
    };
    Job {
        set,
        points,
        limit: counts[LIMIT],
        next: counts[NEXT],
        totals,
        ended: counts[ENDED] != 0,
        outcome,
    }
}

// Makes a job in the lists and returns the answer. A job that is refused is written too, and has ended with that
// refusal.
pub fn make(
    numbers: &mut [f64],
    counts: &mut [usize],
    set: FinSet,
    points: &[f64],
    limit: usize,
) -> Reply
    requires { Room numbers.old counts.old }
    ensures { Makes set points.now limit numbers.old counts.old
        result numbers.new counts.new }
{
    let made = jobs::make(set, points, limit);
    let job = made.job;
    write_job(numbers, counts, job);
    made.reply
}

// Steps the job in the lists and writes it back. `step` calls this only for a step that changes the job.
fn step_there(numbers: &mut [f64], counts: &mut [usize], scratch: &mut [f64]) -> Progress
    requires { Room numbers.old counts.old }
    ensures { StepsThere numbers.old counts.old scratch.old result
        numbers.new counts.new scratch.new }
{
    let mut job = read_job(numbers, counts);
    let progress = jobs::step(&mut job, scratch);
    write_job(numbers, counts, job);
    progress
}

// Steps the job in the lists and returns the answer. A step that finds the job ended, or is lent too short a scratch,
// writes nothing.
pub fn step(numbers: &mut [f64], counts: &mut [usize], scratch: &mut [f64]) -> Progress
    requires { Room numbers.old counts.old }
    ensures { Steps numbers.old counts.old scratch.old result
        numbers.new counts.new scratch.new }
{
    let ended = counts[ENDED] != 0;
    if ended {
        return Progress::Ended;
    }
    if jobs::is_short(ended, counts[LIMIT], scratch.len()) {
        return Progress::Short;
    }
    step_there(numbers, counts, scratch)
}

// Returns a step's answer as a number and figures, from the job that the step left in the lists.
pub fn step_row(numbers: &[f64], counts: &[usize], progress: Progress) -> Row
    requires { Room numbers.now counts.now }
    ensures { result ≡ step_row progress (job_in numbers.now counts.now) }
{
    match progress {
        Progress::Short => {
            let figures = figures::bare_figures(Err(Refusal::Scratch), counts[SAMPLES]);
            jobs::figures_row(figures)
        }
        Progress::More => jobs::plain_row(MORE),
        Progress::Ended => {
            let outcome = read_outcome(numbers, counts);
            jobs::figures_row(outcome)
        }
    }
}

// Changes the density of the job in the lists and writes the job back. `change_density` calls this only for a change
// that is taken.
fn change_there(numbers: &mut [f64], counts: &mut [usize], density: Density) -> Reply
    requires { Room numbers.old counts.old }
    ensures { ChangesThere numbers.old counts.old density result numbers.new
        counts.new }
{
    let mut job = read_job(numbers, counts);
    let reply = jobs::change_density(&mut job, density);
    write_job(numbers, counts, job);
    reply
}

fn takes_density(ended: bool, density: Density) -> bool
    ensures { result ≡ density_taken ended density }
{
    let verdict = materials::check_density(density);
    !ended & verdict.is_ok()
}

// Changes the density of the job in the lists and returns the answer. A change that is refused writes nothing.
pub fn change_density(numbers: &mut [f64], counts: &mut [usize], density: Density) -> Reply
    requires { Room numbers.old counts.old }
    ensures { Changes numbers.old counts.old density result numbers.new counts.new }
{
    if takes_density(counts[ENDED] != 0, density) {
        return change_there(numbers, counts, density);
    }
    let job = read_job(numbers, counts);
    let changed = jobs::change_by_value(job, density);
    changed.reply
}

// Returns how far the job in the lists is.
pub fn progress_of(numbers: &[f64], counts: &[usize]) -> JobProgress
    requires { Room numbers.now counts.now }
    ensures { result ≡ progress_of (job_in numbers.now counts.now) }
{
    let job = read_job(numbers, counts);
    jobs::progress_of(job)
}
