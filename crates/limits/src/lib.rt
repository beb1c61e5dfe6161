// The limits of a call and of a set's lengths and angles, by field number.
//
// Document 01, "Set and planform": a length is zero or has magnitude 2^-20 to 64, an angle at most 4 rad. The Rust's
// `check_dimension` asks only that a length is finite and above 0, or 0 where that is allowed.
#![tactic(auto)]

ghost use Rattle.std.specs.Prelude.{◌≡◌};
ghost use Rattle.limits.specs.Limits.{zero_allowed, negative_allowed, length_within, length_check, angle_check};
ghost use Rattle.limits.specs.Limits.{limit_check, scratch_check, count_check};

use refusals::{Refusal, Verdict, refuse_unless};

// The most pieces of a strip, which is the upper limit of L; the numbers of scratch that a piece takes; and their
// product, as no run needs more scratch.
pub const MOST_PIECES: usize = 64;

pub const PIECE_NUMBERS: usize = 16;

pub const SCRATCH_NUMBERS: usize = PIECE_NUMBERS * MOST_PIECES;

// How many samples the rule takes of a piece.
pub const PIECE_SAMPLES: usize = 15;

// The most points of an outline; the numbers that hold them; and the most strips between their heights, of which the
// first and the last point share one, at the root.
pub const MOST_POINTS: usize = 64;

pub const OUTLINE_NUMBERS: usize = 2 * MOST_POINTS;

pub const MOST_STRIPS: usize = MOST_POINTS - 2;

// The most samples of a run: a strip takes those of one piece, and those of two more for each halving.
pub const MOST_SAMPLES: usize = MOST_STRIPS * PIECE_SAMPLES * (2 * MOST_PIECES - 1);

// The numbers of the fields, which a refusal 4 or 9 carries.
pub const ROOT_CHORD: usize = 1;

pub const TIP_CHORD: usize = 2;

pub const SPAN: usize = 3;

pub const SWEEP: usize = 4;

pub const POINT_X: usize = 5;

pub const POINT_Y: usize = 6;

pub const THICKNESS: usize = 7;

pub const TAB_HEIGHT: usize = 8;

pub const TAB_LENGTH: usize = 9;

pub const TAB_OFFSET: usize = 10;

pub const BODY_RADIUS: usize = 11;

pub const CANT: usize = 12;

pub const BASE_ANGLE: usize = 13;

pub const TUBE_LENGTH: usize = 14;

pub const OUTER_RADIUS: usize = 15;

pub const FILLET_RADIUS: usize = 16;

pub const DRILL_X: usize = 17;

pub const DRILL_HEIGHT: usize = 18;

pub const OFFSET: usize = 19;

pub const ROLL: usize = 20;

// The least and the largest magnitude of a length other than zero, in metres: 2^-20 and 64.
const SHORTEST_M: f64 = 9.5367431640625e-7;

const LONGEST_M: f64 = 64.0;

// The largest magnitude of an angle, in radians.
const WIDEST_RAD: f64 = 4.0;

// Checks that the limit L is 1 to `MOST_PIECES`, else refuses with 1.
pub fn check_limit(limit: usize) -> Verdict
    ensures { result ≡ limit_check limit }
{
    refuse_unless((1 <= limit) & (limit <= MOST_PIECES), Refusal::Limit)
}

// Checks that a scratch of `scratch_len` numbers has room for `limit` pieces, else refuses with 2. It divides, so that
// no product can wrap.
pub fn check_scratch(limit: usize, scratch_len: usize) -> Verdict
    ensures { result ≡ scratch_check limit scratch_len }
{
    refuse_unless(limit <= scratch_len / PIECE_NUMBERS, Refusal::Scratch)
}

// Checks that a count of fins, or of bodies to be joined, is 1 to 32, else refuses with 3. A function for both this and
// the limit's range would take all that the line has.
pub fn check_count(count: usize) -> Verdict
    ensures { result ≡ count_check count }
{
    refuse_unless((1 <= count) & (count <= 32), Refusal::Count)
}

// Tells whether a length is within the limits, given whether zero passes and whether a negative length does. A NaN
// never is.
pub fn length_within(zero_passes: bool, negative_passes: bool, length_m: f64) -> bool
    ensures { result ≡ length_within zero_passes negative_passes length_m }
{
    let magnitude_m = floats::abs(length_m);
    (zero_passes & (length_m == 0.0))
        | ((negative_passes | (0.0 < length_m))
            & ((SHORTEST_M <= magnitude_m) & (magnitude_m <= LONGEST_M)))
}

fn zero_allowed(field: usize) -> bool
    ensures { result ≡ zero_allowed field }
{
    (field == TIP_CHORD)
        | (field == SWEEP)
        | (field == POINT_X)
        | (field == POINT_Y)
        | (field == TAB_OFFSET)
        | (field == BODY_RADIUS)
        | (field == FILLET_RADIUS)
        | (field == DRILL_X)
        | (field == DRILL_HEIGHT)
        | (field == OFFSET)
}

fn negative_allowed(field: usize) -> bool
    ensures { result ≡ negative_allowed field }
{
    (field == SWEEP)
        | (field == POINT_X)
        | (field == TAB_OFFSET)
        | (field == DRILL_X)
        | (field == DRILL_HEIGHT)
        | (field == OFFSET)
}

// Checks that a length is within the limits of its field, else refuses with 4 and the field.
pub fn check_length(field: usize, length_m: f64) -> Verdict
    ensures { result ≡ length_check field length_m }
{
    let within = length_within(zero_allowed(field), negative_allowed(field), length_m);
    refuse_unless(within, Refusal::Length(field))
}

// Checks that an angle is no NaN and at most 4 rad in magnitude, else refuses with 9 and the field.
pub fn check_angle(field: usize, angle_rad: f64) -> Verdict
    ensures { result ≡ angle_check field angle_rad }
{
    refuse_unless(floats::abs(angle_rad) <= WIDEST_RAD, Refusal::Angle(field))
}
