// An answer's words: its shape, in which `F` stands for a figure and `N` for a count, and its figures and counts.
ghost use Rattle.std.specs.Prelude.{◌≡◌, ◌+◌, ◌≤◌, ◌<◌, length};
ghost use Rattle.blocks.specs.Steps.{end_bytes, PutsFigure, PutsCount, PutsPlain, PutsOther, PutsWord};
ghost use Rattle.blocks.specs.Steps.{IsRead};

// How far reading is: how many bytes of the shape, how many figures and how many counts are written.
#[derive(Clone, Copy)]
pub(crate) struct Read {
    pub(crate) bytes: usize,
    pub(crate) figures: usize,
    pub(crate) counts: usize,
}

// Adds `F` to the shape and x to the figures.
fn put_figure(shape: &mut [u8], figures: &mut [f64], p: Read, x: f64) -> Read
    requires { (p.bytes < length shape.old) × (p.figures < length figures.old) }
    ensures { PutsFigure x p result shape.old shape.new figures.old figures.new }
{
    let n = p.bytes;
    let k = p.figures;
    shape[n] = 70;
    figures[k] = x;
    Read {
        bytes: n + 1,
        figures: k + 1,
        counts: p.counts,
    }
}

// Adds `N` to the shape and n to the counts.
fn put_count(shape: &mut [u8], counts: &mut [u64], p: Read, n: u64) -> Read
    requires { (p.bytes < length shape.old) × (p.counts < length counts.old) }
    ensures { PutsCount n p result shape.old shape.new counts.old counts.new }
{
    let at = p.bytes;
    let k = p.counts;
    shape[at] = 78;
    counts[k] = n;
    Read {
        bytes: at + 1,
        figures: p.figures,
        counts: k + 1,
    }
}

// Adds bytes to the shape that stand for themselves.
fn put_plain(shape: &mut [u8], p: Read, bytes: &[u8]) -> Read
    requires { p.bytes + length bytes.now ≤ length shape.old }
    ensures { PutsPlain bytes.now p result shape.old shape.new }
{
    let end = texts::put_bytes(shape, p.bytes, bytes);
    Read {
        bytes: end,
        figures: p.figures,
        counts: p.counts,
    }
}

// Adds a word that is no figure: a count as `N`, a single byte as `?`, so that it does not look like `F` or `N`, and
// any other word as it is.
fn put_other(shape: &mut [u8], counts: &mut [u64], p: Read, word: &[u8]) -> Read
    requires { (1 ≤ length word.now) × (p.bytes + length word.now ≤ length shape.old)
        × (p.counts + length word.now ≤ length counts.old) }
    ensures { PutsOther word.now p result shape.old shape.new counts.old
        counts.new }
{
    match counts::read_count(word) {
        Some(n) => put_count(shape, counts, p, n),
        None => {
            if word.len() == 1 {
                put_plain(shape, p, b"?")
            } else {
                put_plain(shape, p, word)
            }
        }
    }
}

// Adds a word of the line, which gives nothing where it is empty.
fn put_word(shape: &mut [u8], figures: &mut [f64], counts: &mut [u64], p: Read, word: &[u8]) -> Read
    requires word_in_bounds { (p.bytes + length word.now ≤ length shape.old)
        × (p.figures + length word.now ≤ length figures.old) }
    requires word_in_bounds_2 { p.counts + length word.now ≤ length counts.old }
    ensures { PutsWord word.now p result shape.old shape.new
        figures.old figures.new counts.old counts.new }
{
    if word.len() == 0 {
        return p;
    }
    match hexadecimal::read_figure(word) {
        Some(x) => put_figure(shape, figures, p, x),
        None => put_other(shape, counts, p, word),
    }
}

// Adds the byte that ended a word, if the line did not end there.
fn put_end(shape: &mut [u8], p: Read, line: &[u8], to: usize) -> Read
    requires { to < length line.now → p.bytes < length shape.old }
    ensures { PutsPlain (end_bytes line.now to) p result shape.old shape.new }
{
    if to < line.len() {
        let n = p.bytes;
        shape[n] = line[to];
        return Read {
            bytes: n + 1,
            figures: p.figures,
            counts: p.counts,
        };
    }
    p
}

// Reads a whole line into its shape, figures and counts, in lists at least as long as the line.
pub(crate) fn read_answer(
    line: &[u8],
    shape: &mut [u8],
    figures: &mut [f64],
    counts: &mut [u64],
) -> Read
    requires line_in_bounds { (length line.now ≤ length shape.old) × (length line.now ≤ length figures.old) }
    requires line_in_bounds_2 { (length line.now ≤ length counts.old) × (length line.now ≤ 512) }
    ensures { IsRead line.now result shape.new figures.new counts.new }
{
    let mut r = Read {
        bytes: 0,
        figures: 0,
        counts: 0,
    };
    let mut i: usize = 0;
    while i < line.len() {
        let to = tokens::word_end(line, i);
        let w = put_word(shape, figures, counts, r, &line[i..to]);
        r = put_end(shape, w, line, to);
        i = to + 1;
    }
    r
}
