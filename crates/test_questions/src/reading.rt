// A line of a list read by a template, by a reader of its own, so that the lists do not depend on how a card line is
// read: `F` stands for the sixteen digits of an f64's bits, `F..` for as many figures as there are, `x|z` for one of
// two words or more, and any other word for itself.
ghost use Rattle.std.specs.Prelude.{◌≤◌, length};
ghost use Rattle.test_questions.specs.Parts.{line_figures, Reached};

use templates::same_bytes;
use tokens::LINE_BYTES;

// The most figures that a question and its answer have.
pub(crate) const LINE_FIGURES: usize = 256;

// Where reading stands: whether all of the template so far fits, the next byte, how many figures have been read, how
// many of them stood before the last word that is no choice, which is `=` in the end, and the places of the last two
// words chosen, from 1 on.
#[derive(Clone, Copy)]
pub(crate) struct Cursor {
    pub(crate) ok: bool,
    pub(crate) at: usize,
    pub(crate) figures: usize,
    pub(crate) asked: usize,
    pub(crate) earlier: usize,
    pub(crate) chosen: usize,
}

// Returns the place of a word among those between the bars, from 1 on, or 0 where it is none of them.
fn place_among(word: &[u8], words: &[u8]) -> usize {
    words
        .split(|b| *b == b'|')
        .position(|choice| choice == word)
        .map_or(0, |i| i + 1)
}

// Takes one token of the line by one of a template.
fn take_one(line: &[u8], c: Cursor, wanted: &[u8], values: &mut [f64]) -> Cursor
    requires { Reached line.now c × (line_figures ≤ length values.old) }
    ensures { Reached line.now result }
{
    let at = c.at;
    let figures = c.figures;
    let asked = c.asked;
    let earlier = c.earlier;
    let chosen = c.chosen;
    let found = tokens::next_token(line, at);
    let from = found.from;
    let to = found.to;
    let fails = Cursor {
        ok: false,
        at,
        figures,
        asked,
        earlier,
        chosen,
    };
    if to <= from {
        return fails;
    }
    let word = &line[from..to];
    if !same_bytes(wanted, b"F") {
        if same_bytes(wanted, word) {
            return Cursor {
                ok: true,
                at: to,
                figures,
                asked: figures,
                earlier,
                chosen,
            };
        }
        let place = place_among(word, wanted);
        return Cursor {
            ok: 0 < place,
            at: to,
            figures,
            asked,
            earlier: chosen,
            chosen: place,
        };
    }
    if LINE_FIGURES <= figures {
        return fails;
    }
    let Some(x) = hexadecimal::read_figure(word) else {
        return fails;
    };
    values[figures] = x;
    let more = figures + 1;
    Cursor {
        ok: true,
        at: to,
        figures: more,
        asked,
        earlier,
        chosen,
    }
}

// Takes figures, as many as there are.
fn take_figures(line: &[u8], c: Cursor, values: &mut [f64]) -> Cursor
    requires { Reached line.now c × (line_figures ≤ length values.old) }
    ensures { Reached line.now result }
{
    let mut s = c;
    for _ in 0..LINE_BYTES {
        let next = take_one(line, s, b"F", values);
        if !next.ok {
            return s;
        }
        s = next;
    }
    s
}

// Takes a template: its tokens, one after another, as long as they fit.
fn take_text(line: &[u8], c: Cursor, template: &[u8], values: &mut [f64]) -> Cursor
    requires { Reached line.now c × (line_figures ≤ length values.old) }
    ensures { Reached line.now result }
{
    let mut s = c;
    let mut i: usize = 0;
    while i < template.len() {
        if !s.ok {
            return s;
        }
        let wanted = tokens::next_token(template, i);
        let from = wanted.from;
        let to = wanted.to;
        if to <= from {
            return s;
        }
        i = to;
        let figures = same_bytes(&template[from..to], b"F..");
        if figures {
            s = take_figures(line, s, values);
            continue;
        }
        s = take_one(line, s, &template[from..to], values);
    }
    s
}

// Reads the whole line by a template: it fits where the line ends with it.
pub(crate) fn read(line: &[u8], template: &[u8], values: &mut [f64]) -> Cursor
    requires { line_figures ≤ length values.old }
    ensures { Reached line.now result }
{
    let start = Cursor {
        ok: true,
        at: 0,
        figures: 0,
        asked: 0,
        earlier: 0,
        chosen: 0,
    };
    let end = take_text(line, start, template, values);
    let at = end.at;
    Cursor {
        ok: end.ok & (line.len() <= at),
        at,
        figures: end.figures,
        asked: end.asked,
        earlier: end.earlier,
        chosen: end.chosen,
    }
}
