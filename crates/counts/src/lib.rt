// Counts as text: decimal digits, read and printed (docs/FORMS.md; document 01, "The card program": "Counts are
// decimal").
#![tactic(auto)]

ghost use Rattle.std.specs.Prelude.{◌≡◌, ◌+◌, ◌≤◌, length};
ghost use Rattle.texts.specs.Appended.{Appended};
ghost use Rattle.counts.specs.Counts.{digit_value, count_of, capped, capped_count, count_text};

// Returns the value of a decimal digit, 0 to 9, or 10 for any other byte.
pub fn digit_value(b: u8) -> u64
    ensures { result ≡ digit_value b }
{
    if 48 <= b {
        if b <= 57 {
            return (b - 48) as u64;
        }
    }
    10
}

fn cap(n: u64) -> u64
    ensures { result ≡ capped n }
{
    n.min(1_000_000)
}

// Reads a word of any length as a count, and gives none where it is no count. A value above a million is given as a
// million: every limit on a count is far below that.
pub fn read_count(word: &[u8]) -> Option<u64>
    ensures { result ≡ capped_count (count_of word.now) }
{
    if word.len() == 0 {
        return None;
    }
    let mut n: u64 = 0;
    for b in word {
        let d = digit_value(*b);
        if 10 <= d {
            return None;
        }
        n = cap(n * 10 + d);
    }
    Some(n)
}

// Appends a count's text to the n bytes at the start of out, and returns how many there are then.
pub fn put_count(out: &mut [u8], n: usize, count: u64) -> usize
    requires { n + 20 ≤ length out.old }
    ensures { Appended out.old n (count_text count) out.new result }
{
    let mut text = [0u8; 20];
    let k = io::decimal(count, &mut text);
    texts::put_bytes(out, n, &text[..k])
}
