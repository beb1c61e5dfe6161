// The engine in lent memory: `ENGINE_NUMBERS` numbers and `ENGINE_COUNTS` counts, for the library and for the card
// program's lines (document 02, Paper 10).
//
// A call reads the screens and one job, works on both by value with the functions of `engines`, and writes both back
// where it changed them; the other seven jobs stay where they lie. Any two lists that are long enough hold some engine;
// lists of zeros hold one with no job.
#![tactic(auto)]

ghost use Rattle.std.specs.Prelude.{◌≡◌, ◌≤◌, ◌<◌, length};
ghost use Rattle.lent_engines.specs.Memory.{engine_counts_length, screen_counts, screens_in, engine_in};
ghost use Rattle.lent_engines.specs.Lent.{Room, lists, WritesScreens, WritesAt, Clears, Turns, Submits, Changes};
ghost use Rattle.engines.specs.Engines.{place_of, turn_row, served_screen, job_at, with_job, progress_at};

use engines::{Screens, Turn};
use figures::Figures;
use fins::FinSet;
use jobs::{Job, JobProgress, Reply, Row};
use lent_jobs::{JOB_COUNTS, JOB_NUMBERS, MORE};
use materials::Density;
use refusals::{Refusal, Verdict};

// The lengths of the two lists: the numbers of eight jobs; and the counts of the screens, then those of eight jobs.
pub const ENGINE_NUMBERS: usize = 8 * JOB_NUMBERS;

pub const ENGINE_COUNTS: usize = SCREENS + 8 * JOB_COUNTS;

// How many counts stand before those of the jobs: for each screen whether it holds a job, and the screen served last.
const SCREENS: usize = 9;

// The number that stands for the answer of an idle turn, above every refusal's number.
const IDLE: usize = 1001;

fn read_screens(counts: &[usize]) -> Screens
    requires { 9 ≤ length counts.now }
    ensures { result ≡ screens_in counts.now }
{
    let held = [
        counts[0] != 0,
        counts[1] != 0,
        counts[2] != 0,
        counts[3] != 0,
        counts[4] != 0,
        counts[5] != 0,
        counts[6] != 0,
        counts[7] != 0,
    ];
    Screens {
        held,
        last: counts[8],
    }
}

fn counts_of(screens: Screens) -> [usize; SCREENS]
    ensures { result ≡ screen_counts screens }
{
    let held = screens.held;
    [
        lent_jobs::flag_of(held[0]),
        lent_jobs::flag_of(held[1]),
        lent_jobs::flag_of(held[2]),
        lent_jobs::flag_of(held[3]),
        lent_jobs::flag_of(held[4]),
        lent_jobs::flag_of(held[5]),
        lent_jobs::flag_of(held[6]),
        lent_jobs::flag_of(held[7]),
        screens.last,
    ]
}

// Writes the screens over the first nine counts.
fn write_screens(counts: &mut [usize], screens: Screens)
    requires { 9 ≤ length counts.old }
    ensures { WritesScreens screens counts.old counts.new }
{
    let written = counts_of(screens);
    counts[0] = written[0];
    counts[1] = written[1];
    counts[2] = written[2];
    counts[3] = written[3];
    counts[4] = written[4];
    counts[5] = written[5];
    counts[6] = written[6];
    counts[7] = written[7];
    counts[8] = written[8];
}

// Makes an engine with no job and no screen served, whatever the counts were before. The counts of the jobs become 0
// too, since calls read them.
pub fn clear(counts: &mut [usize])
    requires { engine_counts_length ≤ length counts.old }
    ensures { Clears counts.old counts.new }
{
    counts[..ENGINE_COUNTS].fill(0);
}

// Returns the job at a place, 0 to 7.
fn read_at(numbers: &[f64], counts: &[usize], place: usize) -> Job
    requires { Room numbers.now counts.now × (place < 8) }
    ensures { result ≡ job_at (engine_in numbers.now counts.now) place }
{
    let a = place * JOB_NUMBERS;
    let b = a + JOB_NUMBERS;
    let i = SCREENS + place * JOB_COUNTS;
    let j = i + JOB_COUNTS;
    lent_jobs::read_job(&numbers[a..b], &counts[i..j])
}

// Writes the screens and the job at a place.
fn write_at(numbers: &mut [f64], counts: &mut [usize], place: usize, screens: Screens, job: Job)
    requires { Room numbers.old counts.old × (place < 8) }
    ensures { WritesAt (with_job (engine_in numbers.old counts.old) place screens job) place
        (lists numbers.old counts.old) (lists numbers.new counts.new) }
{
    let a = place * JOB_NUMBERS;
    let b = a + JOB_NUMBERS;
    let i = SCREENS + place * JOB_COUNTS;
    let j = i + JOB_COUNTS;
    write_screens(counts, screens);
    lent_jobs::write_job(&mut numbers[a..b], &mut counts[i..j], job);
}

// Works one turn of the engine in the lists and returns its answer. A turn that serves no screen writes nothing.
pub fn turn(numbers: &mut [f64], counts: &mut [usize], scratch: &mut [f64]) -> Turn
    requires { Room numbers.old counts.old }
    ensures { Turns numbers.old counts.old scratch.old result
        numbers.new counts.new scratch.new }
{
    let screens = read_screens(counts);
    let place = engines::pick(screens);
    let job = read_at(numbers, counts, place);
    let s = engines::serve(screens, job, scratch);
    let turn = s.turn;
    if engines::served_screen(turn) == 0 {
        return turn;
    }
    let screens = s.screens;
    let job = s.job;
    write_at(numbers, counts, place, screens, job);
    turn
}

// Returns the outcome of a screen's job: its answer, once it has ended.
fn outcome_at(numbers: &[f64], counts: &[usize], screen: usize) -> Figures
    requires { Room numbers.now counts.now }
    ensures { result ≡ (job_at (engine_in numbers.now counts.now) (place_of screen)).outcome }
{
    let place = engines::place_of(screen);
    let job = read_at(numbers, counts, place);
    job.outcome
}

// Returns a turn's answer as a number and figures. The figures of an ended job are read from the lists, where the turn
// left them.
pub fn turn_row(numbers: &[f64], counts: &[usize], turn: Turn) -> Row
    requires { Room numbers.now counts.now }
    ensures { result ≡ turn_row turn
        (job_at (engine_in numbers.now counts.now) (place_of (served_screen turn))) }
{
    match turn {
        Turn::Short => {
            let figures = figures::bare_figures(Err(Refusal::Scratch), 0);
            jobs::figures_row(figures)
        }
        Turn::Idle => jobs::plain_row(IDLE),
        Turn::More(_) => jobs::plain_row(MORE),
        Turn::Ended(screen) => {
            let outcome = outcome_at(numbers, counts, screen);
            jobs::figures_row(outcome)
        }
    }
}

// Submits a set to a screen of the engine in the lists and returns the answer. A submission that is refused writes
// nothing.
pub fn submit(
    numbers: &mut [f64],
    counts: &mut [usize],
    screen: usize,
    set: FinSet,
    points: &[f64],
    limit: usize,
) -> Reply
    requires { Room numbers.old counts.old }
    ensures { Submits screen set points.now limit numbers.old counts.old result
        numbers.new counts.new }
{
    let screens = read_screens(counts);
    let place = engines::place_of(screen);
    let job = read_at(numbers, counts, place);
    let made = jobs::make(set, points, limit);
    let s = engines::submit_at(screens, job, screen, made);
    let reply = s.reply;
    let verdict = reply.verdict;
    if verdict.is_err() {
        return reply;
    }
    let screens = s.screens;
    let job = s.job;
    write_at(numbers, counts, place, screens, job);
    reply
}

// Changes the density of a screen's job and returns the answer. A change that is refused writes nothing.
pub fn change_density(
    numbers: &mut [f64],
    counts: &mut [usize],
    screen: usize,
    density: Density,
) -> Reply
    requires { Room numbers.old counts.old }
    ensures { Changes screen density numbers.old counts.old result numbers.new
        counts.new }
{
    let screens = read_screens(counts);
    let place = engines::place_of(screen);
    let job = read_at(numbers, counts, place);
    let s = engines::change_at(screens, job, screen, density);
    let reply = s.reply;
    let verdict = reply.verdict;
    if verdict.is_err() {
        return reply;
    }
    let screens = s.screens;
    let job = s.job;
    write_at(numbers, counts, place, screens, job);
    reply
}

// Returns how far the job of a screen is, or zeros where the screen holds no job or there is no such screen.
pub fn progress_at(numbers: &[f64], counts: &[usize], screen: usize) -> JobProgress
    requires { Room numbers.now counts.now }
    ensures { result ≡ progress_at (engine_in numbers.now counts.now) screen }
{
    let screens = read_screens(counts);
    let place = engines::place_of(screen);
    let job = read_at(numbers, counts, place);
    engines::progress_at(screens, job, screen)
}
