// Words where a figure belongs (document 02, Paper 2; docs/FORMS.md): `#` and sixteen lowercase hexadecimal digits of
// an f64's bits, or a decimal: an optional sign, 1 to 19 digits in all, one optional point with a digit on each side.
// Exactly sixteen digits and nothing else are no figure: they were bits before the mark came.
#![tactic(auto)]

ghost use Rattle.std.specs.Prelude.{◌≡◌, ◌^◌, ◌<◌, ◌≤◌, length, drop};
ghost use Rattle.figure_words.specs.FigureWords.{whole_figure, unsigned_figure, decimal_figure, figure_word};
ghost use Rattle.figure_words.specs.Runs.{RunTo};

// Returns the figure that a word is, or that it is none.
pub fn read_figure(word: &[u8]) -> Option<f64>
    ensures { result ≡ figure_word word.now }
{
    if word.len() == 0 {
        return None;
    }
    if word[0] == b'#' {
        return hexadecimal::read_figure(&word[1..]);
    }
    read_decimal(word)
}

fn read_decimal(word: &[u8]) -> Option<f64>
    ensures { result ≡ decimal_figure word.now }
{
    if word.len() == 0 {
        return None;
    }
    let b = word[0];
    if b == b'+' {
        return read_unsigned(word, 1, false, false);
    }
    if b == b'-' {
        return read_unsigned(word, 1, false, true);
    }
    read_unsigned(word, 0, true, false)
}

// Reads the word from place `at` on, after its sign; `bare` says that it has none.
fn read_unsigned(word: &[u8], at: usize, bare: bool, minus: bool) -> Option<f64>
    requires { at ≤ length word.now }
    ensures { result ≡ unsigned_figure bare minus (drop at word.now) }
{
    let whole = digits_from(word, at, 0, 0);
    let end = whole.end;
    if end == at {
        return None;
    }
    if end == word.len() {
        return whole_figure(bare, minus, whole.number, end - at);
    }
    if word[end] != b'.' {
        return None;
    }
    let all = digits_from(word, end + 1, whole.number, end - at);
    let last = all.end;
    if last == end + 1 {
        return None;
    }
    if last != word.len() {
        return None;
    }
    Some(decimals::nearest_decimal(minus, all.number, (last - end - 1) as u64))
}

// Returns the figure of `count` digits without a point: sixteen bare ones are none.
fn whole_figure(bare: bool, minus: bool, n: u64, count: usize) -> Option<f64>
    requires { (0 < count) × (count ≤ 19) }
    ensures { result ≡ whole_figure bare minus n count }
{
    if bare {
        if count == 16 {
            return None;
        }
        return Some(decimals::nearest_decimal(minus, n, 0));
    }
    Some(decimals::nearest_decimal(minus, n, 0))
}

// A run of digits: the number that they make up with those before them, and the place after them.
#[derive(Clone, Copy)]
struct Run {
    number: u64,
    end: usize,
}

// Reads the digits from place `at` on, after the `before` digits that make up n, up to 19 in all.
fn digits_from(word: &[u8], at: usize, n: u64, before: usize) -> Run
    requires { (at ≤ length word.now) × (before ≤ 19) × (n < 10 ^ before) }
    ensures { RunTo word.now at n before result.number result.end }
{
    let end = (word.len() - at).min(19 - before) + at;
    let mut number = n;
    for i in at..end {
        let d = counts::digit_value(word[i]);
        if 10 <= d {
            return Run { number, end: i };
        }
        number = number * 10 + d;
    }
    Run { number, end }
}
