// Figures as text: sixteen lowercase hexadecimal digits of an f64's bits, read and printed (document 01, "The card
// program").
//
// The sixteen digits are read as two machine words of eight bytes each, and an operation on one works on all its bytes
// at once (document 02, Paper 5): no byte of a sum reaches 256, so that none carries into the next.
#![tactic(auto)]

ghost use Rattle.std.specs.Prelude.{◌≡◌, true, ◌+◌, ◌<◌, ◌≤◌, length, get_or, take, drop};
ghost use Rattle.texts.specs.Appended.{Appended};
ghost use Rattle.hexadecimal.specs.Hex.{digit_value, figure_of, digit_letter, printed_bits, figure_text};
ghost use Rattle.hexadecimal.specs.Words.{Each, bytes_of, lanes, taken, all_digits};

fn byte_at(text: &[u8], i: usize) -> u64
    requires { i < length text.now }
    ensures { (result ≡ get_or text.now i 0) × (result < 256) }
{
    text[i] as u64
}

// Returns the machine word of the eight bytes from place `at` on. The last byte stands first in the sum, as then the
// eight reads are compiled to one.
fn load(text: &[u8], at: usize) -> u64
    requires { at + 8 ≤ length text.now }
    ensures { bytes_of result ≡ take 8 (drop at text.now) }
{
    byte_at(text, at + 7)
        + byte_at(text, at + 6) * 0x100
        + byte_at(text, at + 5) * 0x1_0000
        + byte_at(text, at + 4) * 0x100_0000
        + byte_at(text, at + 3) * 0x1_0000_0000
        + byte_at(text, at + 2) * 0x100_0000_0000
        + byte_at(text, at + 1) * 0x1_0000_0000_0000
        + byte_at(text, at) * 0x100_0000_0000_0000
}

// Returns each byte's value as if it were a digit.
fn values(w: u64) -> u64
    ensures { result ≡ lanes 8 0 taken (bytes_of w) }
{
    ((w & 0x0f0f_0f0f_0f0f_0f0f) + 9 * ((w & 0x4040_4040_4040_4040) / 64)) & 0x0f0f_0f0f_0f0f_0f0f
}

// Returns the letter of each value: from 10 on, a value plus 6 has the bit of weight 16, and letters stand 39 above the
// digits.
fn letters(v: u64) -> u64
    requires { Each (λ b. b < 16) (bytes_of v) }
    ensures { result ≡ lanes 8 0 digit_letter (bytes_of v) }
{
    v + 0x3030_3030_3030_3030 + 39 * (((v + 0x0606_0606_0606_0606) & 0x1010_1010_1010_1010) / 16)
}

// Packs the eight values, a byte each, into four bits each: two and two, four and four, then all.
fn gathered(v: u64) -> u64
    requires { Each (λ b. b < 16) (bytes_of v) }
    ensures { result ≡ lanes 4 0 (λ b. b) (bytes_of v) }
{
    let pairs = (v + v / 0x10) & 0x00ff_00ff_00ff_00ff;
    let fours = (pairs + pairs / 0x100) & 0x0000_ffff_0000_ffff;
    (fours + fours / 0x1_0000) % 0x1_0000_0000
}

// Tells whether each byte is a digit: where it is not, the letter of what it is taken for is another byte.
fn all_digits(w: u64) -> bool
    ensures { result ≡ all_digits (bytes_of w) }
{
    letters(values(w)) == w
}

// Returns the number that eight digits write.
fn number(w: u64) -> u64
    requires { all_digits (bytes_of w) ≡ true }
    ensures { (result ≡ lanes 4 0 digit_value (bytes_of w)) × (result < 0x1_0000_0000) }
{
    gathered(values(w))
}

// Returns the figure that a word is, or that it is none.
pub fn read_figure(word: &[u8]) -> Option<f64>
    ensures { result ≡ figure_of word.now }
{
    if word.len() != 16 {
        return None;
    }
    let first = load(word, 0);
    let second = load(word, 8);
    if !all_digits(first) {
        return None;
    }
    if !all_digits(second) {
        return None;
    }
    Some(floats::from_bits(number(first) * 0x1_0000_0000 + number(second)))
}

// Returns the bits that are printed of x, 0 for either zero.
fn printed_bits(x: f64) -> u64
    ensures { result ≡ printed_bits x }
{
    if x == 0.0 {
        return 0;
    }
    floats::to_bits(x)
}

fn digit_letter(d: u64) -> u8
    requires { d < 16 }
    ensures { result ≡ digit_letter d }
{
    let c = d as u8;
    if c < 10 { c + 48 } else { c + 87 }
}

// Appends a figure's text to the n bytes at the start of out, and returns how many there are then.
pub fn put_figure(out: &mut [u8], n: usize, x: f64) -> usize
    requires { n + 16 ≤ length out.old }
    ensures { Appended out.old n (figure_text x) out.new result }
{
    let mut rest = printed_bits(x);
    for k in (0..16).rev() {
        out[n + k] = digit_letter(rest % 16);
        rest = rest / 16;
    }
    n + 16
}
