// f64s kept in ascending order while they come (the Rust's sort_by(total_cmp)).
//
// Each goes in front of the numbers at the end that are greater. Equal ones, as zeros of both signs, stay in the order
// in which they came, which document 01 leaves free: results compare equal by ==.
#![tactic(auto)]

ghost use Rattle.std.specs.Prelude.{◌≡◌, ◌<◌, length, take};
ghost use Rattle.sorting.specs.Sorted.{insert, over};

// Inserts x among the first n of xs. The element at n is given up for it, and those after stay.
pub fn insert(xs: &mut [f64], n: usize, x: f64)
    requires { n < length xs.old }
    ensures { xs.new ≡ over (insert x (take n xs.old)) xs.old }
{
    for k in (0..n).rev() {
        let y = xs[k];
        if !(x < y) {
            xs[k + 1] = x;
            return;
        }
        xs[k + 1] = y;
    }
    xs[0] = x;
}
