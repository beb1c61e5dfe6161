// What came of a line, and its answers held against what the code gives.

// What came of a line: its answers agree or differ, or it is no line of the lists.
#[derive(Clone, Copy)]
pub enum Outcome {
    Agrees,
    Differs,
    NoLine,
}

pub(crate) fn agrees_or_not(agrees: bool) -> Outcome {
    if agrees {
        Outcome::Agrees
    } else {
        Outcome::Differs
    }
}

// Tells whether two f64s are equal by ==, where a NaN matches a NaN.
fn same(a: f64, b: f64) -> bool {
    if a == b {
        return true;
    }
    if a == a {
        return false;
    }
    b != b
}

// Tells whether the answers are `count` figures, and the results begin with them.
pub(crate) fn agree(answers: &[f64], results: &[f64], count: usize) -> bool {
    answers.len() == count
        && count <= results.len()
        && answers.iter().zip(results).all(|(a, b)| same(*a, *b))
}
