// The refusals of document 01's table and of document 02, one case for each number, with the values that go with it;
// the first refusal of checks in their order; and a verdict as C, Rust and lent memory hold it.
//
// The Rust's `DesignError` and `CoreError` have texts instead; the numbers are the kiosk's.
#![tactic(auto)]

ghost use Rattle.std.specs.Prelude.{◌≡◌, ◌≤◌, length};
ghost use Rattle.refusals.specs.Order.{refuse_unless, refuse_when, first_refusal};
ghost use Rattle.refusals.specs.Refusals.{number_of, case_of, values_of, in_two_places};
ghost use Rattle.refusals.specs.Rows.{IsRow};
ghost use Rattle.refusals.specs.Numbered.{fault_from, refusal_from, number_in, values_in, verdict_from};
ghost use Rattle.refusals.specs.Lent.{with_values, with_count, with_counts};
ghost use Rattle.refusals.specs.Results.{verdict_in};

// What is wrong with a tensor: the cases a, b, d and e of refusal 17, in their order. Six numbers cannot be asymmetric,
// which was c.
#[derive(Clone, Copy)]
pub enum TensorFault {
    Entry,
    Massless,
    Negative,
    Triangle,
}

// The refusals, in the table's order. Length and Angle hold the field's number, Touches the two edges, NotConverged the
// component, Tensor what is wrong.
#[derive(Clone, Copy)]
pub enum Refusal {
    Limit,
    Scratch,
    Count,
    Length(usize),
    Points,
    Ends,
    Touches(usize, usize),
    NoArea,
    Angle(usize),
    TabOffRoot,
    TabTooDeep,
    Density,
    NotConverged(usize),
    Mass,
    Centre,
    Tensor(TensorFault),
    NoForm,
    NoFigure,
    WallOverRadius,
    ThicknessOverRoot,
    FilletRatio,
    Screen,
    NoCorners,
    NotWholeSteps,
    NotHeavier,
}

// The answer of a check: nothing, where it accepts, or a refusal.
pub type Verdict = Result<(), Refusal>;

// Accepts where a condition holds, and refuses otherwise.
pub fn refuse_unless(condition: bool, refusal: Refusal) -> Verdict
    ensures { result ≡ refuse_unless condition refusal }
{
    if condition {
        return Ok(());
    }
    Err(refusal)
}

// Refuses where a condition holds, and accepts otherwise.
pub fn refuse_when(condition: bool, refusal: Refusal) -> Verdict
    ensures { result ≡ refuse_when condition refusal }
{
    refuse_unless(!condition, refusal)
}

// Returns the refusal of the earlier of two checks or, where that accepts, the answer of the later.
pub fn first_refusal(earlier: Verdict, later: Verdict) -> Verdict
    ensures { result ≡ first_refusal earlier later }
{
    earlier.and(later)
}

// Returns the case of a refusal 17, counted from 0; c, the case 2, does not occur any more.
pub fn tensor_case(fault: TensorFault) -> usize
    ensures { result ≡ case_of fault }
{
    match fault {
        TensorFault::Entry => 0,
        TensorFault::Massless => 1,
        TensorFault::Negative => 3,
        TensorFault::Triangle => 4,
    }
}

// A row of the table: a refusal's number, and the values that go with it in two places, 0 where there is none.
#[derive(Clone, Copy)]
struct Row(usize, [usize; 2]);

// Returns a refusal's row of the table. The values are the field of 4 and 9, the two edges of 7, the component of 13,
// the case of 17.
fn row_of(refusal: Refusal) -> Row
    ensures { IsRow refusal result.0 result.1 }
{
    match refusal {
        Refusal::Limit => Row(1, [0, 0]),
        Refusal::Scratch => Row(2, [0, 0]),
        Refusal::Count => Row(3, [0, 0]),
        Refusal::Length(field) => Row(4, [field, 0]),
        Refusal::Points => Row(5, [0, 0]),
        Refusal::Ends => Row(6, [0, 0]),
        Refusal::Touches(i, j) => Row(7, [i, j]),
        Refusal::NoArea => Row(8, [0, 0]),
        Refusal::Angle(field) => Row(9, [field, 0]),
        Refusal::TabOffRoot => Row(10, [0, 0]),
        Refusal::TabTooDeep => Row(11, [0, 0]),
        Refusal::Density => Row(12, [0, 0]),
        Refusal::NotConverged(component) => Row(13, [component, 0]),
        Refusal::Mass => Row(15, [0, 0]),
        Refusal::Centre => Row(16, [0, 0]),
        Refusal::Tensor(fault) => Row(17, [tensor_case(fault), 0]),
        Refusal::NoForm => Row(18, [0, 0]),
        Refusal::NoFigure => Row(19, [0, 0]),
        Refusal::WallOverRadius => Row(20, [0, 0]),
        Refusal::ThicknessOverRoot => Row(21, [0, 0]),
        Refusal::FilletRatio => Row(22, [0, 0]),
        Refusal::Screen => Row(23, [0, 0]),
        Refusal::NoCorners => Row(24, [0, 0]),
        Refusal::NotWholeSteps => Row(25, [0, 0]),
        Refusal::NotHeavier => Row(26, [0, 0]),
    }
}

// Returns the number of a refusal, as the card prints it.
pub fn number(refusal: Refusal) -> usize
    ensures { result ≡ number_of refusal }
{
    row_of(refusal).0
}

// Returns the values that go with a refusal's number, in two places, 0 where there is none.
pub fn values(refusal: Refusal) -> [usize; 2]
    ensures { result ≡ in_two_places (values_of refusal) }
{
    row_of(refusal).1
}

// Returns the fault of a case of 17, the last one for a number that is no case.
fn fault_of(case: usize) -> TensorFault
    ensures { result ≡ fault_from case }
{
    match case {
        0 => TensorFault::Entry,
        1 => TensorFault::Massless,
        3 => TensorFault::Negative,
        _ => TensorFault::Triangle,
    }
}

// Returns the refusal that a row of the table is of, or "no form" where the number is none of the table's.
fn refusal_of(number: usize, first: usize, second: usize) -> Refusal
    ensures { result ≡ refusal_from number first second }
{
    match number {
        1 => Refusal::Limit,
        2 => Refusal::Scratch,
        3 => Refusal::Count,
        4 => Refusal::Length(first),
        5 => Refusal::Points,
        6 => Refusal::Ends,
        7 => Refusal::Touches(first, second),
        8 => Refusal::NoArea,
        9 => Refusal::Angle(first),
        10 => Refusal::TabOffRoot,
        11 => Refusal::TabTooDeep,
        12 => Refusal::Density,
        13 => Refusal::NotConverged(first),
        15 => Refusal::Mass,
        16 => Refusal::Centre,
        17 => Refusal::Tensor(fault_of(first)),
        19 => Refusal::NoFigure,
        20 => Refusal::WallOverRadius,
        21 => Refusal::ThicknessOverRoot,
        22 => Refusal::FilletRatio,
        23 => Refusal::Screen,
        24 => Refusal::NoCorners,
        25 => Refusal::NotWholeSteps,
        26 => Refusal::NotHeavier,
        _ => Refusal::NoForm,
    }
}

// The number of "no form", with which a lent slice that is too short is refused as well.
pub const NO_FORM: usize = 18;

// Returns the number that a verdict has for C, Rust and lent memory, 0 where nothing is refused.
pub fn verdict_number(verdict: Verdict) -> usize
    ensures { result ≡ number_in verdict }
{
    match verdict {
        Ok(()) => 0,
        Err(refusal) => number(refusal),
    }
}

// Returns the values that go with a verdict's number, zeros where nothing is refused.
pub fn verdict_values(verdict: Verdict) -> [usize; 2]
    ensures { result ≡ values_in verdict }
{
    match verdict {
        Ok(()) => [0, 0],
        Err(refusal) => values(refusal),
    }
}

// Returns the verdict that a number and two values stand for.
pub fn verdict_of(number: usize, first: usize, second: usize) -> Verdict
    ensures { result ≡ verdict_from number first second }
{
    if number == 0 {
        return Ok(());
    }
    Err(refusal_of(number, first, second))
}

// Writes a verdict's values over the first two numbers.
pub fn write_values(values: &mut [usize], verdict: Verdict)
    requires { 2 ≤ length values.old }
    ensures { values.new ≡ with_values values.old verdict }
{
    let found = verdict_values(verdict);
    values[0] = found[0];
    values[1] = found[1];
}

// Writes a verdict's values and a count over the first three numbers.
pub fn write_count(counts: &mut [usize], verdict: Verdict, count: usize)
    requires { 3 ≤ length counts.old }
    ensures { counts.new ≡ with_count counts.old verdict count }
{
    let found = verdict_values(verdict);
    counts[0] = found[0];
    counts[1] = found[1];
    counts[2] = count;
}

// Writes a verdict's values, the intervals and the samples over the first four numbers.
pub fn write_counts(counts: &mut [usize], verdict: Verdict, intervals: usize, samples: usize)
    requires { 4 ≤ length counts.old }
    ensures { counts.new ≡ with_counts counts.old verdict intervals samples }
{
    let found = verdict_values(verdict);
    counts[0] = found[0];
    counts[1] = found[1];
    counts[2] = intervals;
    counts[3] = samples;
}

// Returns the verdict of an answer: accepted with a value, or its refusal.
pub fn verdict_in<T>(answer: &Result<T, Refusal>) -> Verdict
    ensures { result ≡ verdict_in answer.now }
{
    match answer {
        Ok(_) => Ok(()),
        Err(refusal) => Err(*refusal),
    }
}
