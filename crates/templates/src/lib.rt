// A line's bytes read by templates (docs/FORMS.md).
//
// A template is written as a form is, `F` standing for a figure, `F..` for figures and `N` for a count. Its tokens are
// held against the line's; the figures go into a lent slice, in order. Of alternatives the first that fits is taken,
// and a template can be taken as often as it fits.
#![tactic(auto)]

ghost use Rattle.std.specs.Prelude.{true, ◌≡◌, ◌≤◌, length, drop};
ghost use Rattle.counts.specs.Counts.{count_of, capped_count};
ghost use Rattle.tokens.specs.Tokens.{line_bytes, tokens};
ghost use Rattle.tokens.specs.Found.{part};
ghost use Rattle.templates.specs.Matching.{same_bytes, is_word_byte, is_word, take_word, take_one, take_figures};
ghost use Rattle.templates.specs.Matching.{take_text, take_each, one_of, optional, cut_at_bars};
ghost use Rattle.templates.specs.Cursors.{taken_before, Room, ReadsOn, Takes, IsWordAt, line_start, not_aform, on_to};
ghost use Rattle.templates.specs.Cursors.{spoiled_to, pick_cursor, counted, plain_to, numbered_cursor, IsBarEnd};

use tokens::{LINE_BYTES, TokenRange};

// The most figures that a line may have: each has at least one byte.
pub const LINE_FIGURES: usize = 4096;

// Where reading stands: whether the line may still be a form; the next byte; how many figures have been read; the
// number read last, which is a count or an alternative's place among the others, from 1 on; and whether a word that is
// no figure stood where one belongs. It is no Option: where `ok` is false too, the figures read so far are counted and
// kept, as `ReadsOn` promises.
#[derive(Clone, Copy)]
pub struct Cursor {
    pub ok: bool,
    pub at: usize,
    pub figures: usize,
    pub number: usize,
    pub spoiled: bool,
}

// Returns the cursor at the beginning of a line.
pub fn line_start() -> Cursor
    ensures { result ≡ line_start }
{
    Cursor {
        ok: true,
        at: 0,
        figures: 0,
        number: 0,
        spoiled: false,
    }
}

// Tells whether two slices have the same bytes.
pub fn same_bytes(a: &[u8], b: &[u8]) -> bool
    ensures { result ≡ same_bytes a.now b.now }
{
    a == b
}

// Returns the cursor of a line that is no form.
fn not_a_form(c: Cursor) -> Cursor
    ensures { result ≡ not_aform c }
{
    Cursor {
        ok: false,
        at: c.at,
        figures: c.figures,
        number: c.number,
        spoiled: c.spoiled,
    }
}

// Returns the cursor moved to the place `to` after a token that is as wanted, or else that of a line that is no form.
fn behind(hit: bool, c: Cursor, to: usize) -> Cursor
    ensures { result ≡ pick_cursor hit (on_to c to) (not_aform c) }
{
    if hit {
        Cursor {
            ok: true,
            at: to,
            figures: c.figures,
            number: c.number,
            spoiled: c.spoiled,
        }
    } else {
        not_a_form(c)
    }
}

// Takes a token of the line as a count.
fn take_count(c: Cursor, word: &[u8], to: usize) -> Cursor
    ensures { result ≡ counted (capped_count (count_of word.now)) c to }
{
    match counts::read_count(word) {
        Some(n) => Cursor {
            ok: true,
            at: to,
            figures: c.figures,
            number: n as usize,
            spoiled: c.spoiled,
        },
        None => not_a_form(c),
    }
}

// Takes a token of the line where a template has no figure: `N` takes a count, any other token only itself.
fn take_plain(c: Cursor, wanted: &[u8], word: &[u8], to: usize) -> Cursor
    ensures { result ≡ plain_to wanted.now word.now c to }
{
    let count = same_bytes(wanted, b"N");
    if count {
        take_count(c, word, to)
    } else {
        behind(same_bytes(wanted, word), c, to)
    }
}

fn is_word_byte(b: u8) -> bool
    ensures { result ≡ is_word_byte b }
{
    33 <= b && b <= 126 && b != 40 && b != 41
}

// Tells whether a token of the line is a word: each of its bytes is 33 to 126, and none is a bracket.
fn is_word(token: &[u8]) -> bool
    ensures { result ≡ is_word token.now }
{
    token.iter().all(|b| is_word_byte(*b))
}

// Takes a token that is no figure where one belongs. After a word reading goes on, and the cursor notes it; after any
// other token the line is no form.
fn take_no_figure(c: Cursor, token: &[u8], to: usize) -> Cursor
    ensures { result ≡ pick_cursor (is_word token.now) (spoiled_to c to) (not_aform c) }
{
    if is_word(token) {
        Cursor {
            ok: true,
            at: to,
            figures: c.figures,
            number: c.number,
            spoiled: true,
        }
    } else {
        not_a_form(c)
    }
}

// Takes a token of the line, found at a place, by one of a template: `F` takes a figure.
fn take_word(line: &[u8], c: Cursor, wanted: &[u8], found: TokenRange, values: &mut [f64]) -> Cursor
    requires { Room line.now values.old c × IsWordAt line.now c found }
    ensures { ReadsOn line.now values.old values.new c result
        (take_word wanted.now (part line.now found.from found.to)
        (tokens (drop found.to line.now)) (taken_before values.old c)) }
{
    let from = found.from;
    let to = found.to;
    let figures = c.figures;
    let word = &line[from..to];
    let figure = same_bytes(wanted, b"F");
    if figure {
        match figure_words::read_figure(word) {
            Some(x) => {
                values[figures] = x;
                let more = figures + 1;
                Cursor {
                    ok: true,
                    at: to,
                    figures: more,
                    number: c.number,
                    spoiled: c.spoiled,
                }
            }
            None => take_no_figure(c, word, to),
        }
    } else {
        take_plain(c, wanted, word, to)
    }
}

// Takes one token of the line by one of a template.
pub fn take_one(line: &[u8], c: Cursor, wanted: &[u8], values: &mut [f64]) -> Cursor
    requires { Room line.now values.old c }
    ensures { Takes (take_one wanted.now) line.now values.old values.new c result }
{
    let at = c.at;
    if !c.ok {
        return c;
    }
    let found = tokens::next_token(line, at);
    if found.to <= found.from {
        return not_a_form(c);
    }
    take_word(line, c, wanted, found, values)
}

// Takes figures, as many as there are.
fn take_figures(line: &[u8], c: Cursor, values: &mut [f64]) -> Cursor
    requires { Room line.now values.old c }
    ensures { Takes take_figures line.now values.old values.new c result }
{
    let mut s = c;
    for _turn in 0..LINE_BYTES {
        let next = take_one(line, s, b"F", values);
        if !next.ok {
            return s;
        }
        s = next;
    }
    s
}

// Takes a template: its tokens, one after another, as long as they fit.
pub fn take_text(line: &[u8], c: Cursor, template: &[u8], values: &mut [f64]) -> Cursor
    requires { Room line.now values.old c }
    ensures { Takes (take_text template.now) line.now values.old values.new c result }
{
    let mut s = c;
    let mut i: usize = 0;
    while i < template.len() {
        if !s.ok {
            return s;
        }
        let wanted = tokens::next_token(template, i);
        let from = wanted.from;
        let to = wanted.to;
        if to <= from {
            return s;
        }
        i = to;
        let figures = same_bytes(&template[from..to], b"F..");
        if figures {
            s = take_figures(line, s, values);
            continue;
        }
        s = take_one(line, s, &template[from..to], values);
    }
    s
}

// Takes a template as often as it fits.
pub fn take_each(line: &[u8], c: Cursor, template: &[u8], values: &mut [f64]) -> Cursor
    requires { Room line.now values.old c }
    ensures { Takes (take_each (take_text template.now)) line.now values.old
        values.new c result }
{
    let mut s = c;
    for _turn in 0..LINE_BYTES {
        let next = take_text(line, s, template, values);
        if !next.ok {
            return s;
        }
        s = next;
    }
    s
}

// Returns the cursor with the number of an alternative.
fn with_number(c: Cursor, number: usize) -> Cursor
    ensures { result ≡ numbered_cursor number c }
{
    Cursor {
        ok: c.ok,
        at: c.at,
        figures: c.figures,
        number,
        spoiled: c.spoiled,
    }
}

// Returns the place of the first bar from i on, or the end.
pub fn bar_end(alternatives: &[u8], i: usize) -> usize
    requires { i ≤ length alternatives.now }
    ensures { IsBarEnd alternatives.now i result }
{
    for end in i..alternatives.len() {
        if alternatives[end] == 124 {
            return end;
        }
    }
    alternatives.len()
}

// Takes the first of the alternatives that fits, a bar between each two, and notes its number, from 1 on. A `for` over
// the pieces between bars would need a law that `split` cuts as `cut_at_bars` does.
pub fn take_one_of(line: &[u8], c: Cursor, alternatives: &[u8], values: &mut [f64]) -> Cursor
    requires { Room line.now values.old c × (length alternatives.now ≤ line_bytes) }
    ensures { Takes (one_of (cut_at_bars alternatives.now)) line.now values.old
        values.new c result }
{
    let mut i: usize = 0;
    let mut number: usize = 1;
    loop {
        let end = bar_end(alternatives, i);
        let r = take_text(line, c, &alternatives[i..end], values);
        if r.ok {
            return with_number(r, number);
        }
        if alternatives.len() <= end {
            return not_a_form(c);
        }
        i = end + 1;
        number += 1;
    }
}

// Takes the first of the alternatives that fits as `take_one_of` does, or nothing, which has number 0.
pub fn take_optional(line: &[u8], c: Cursor, alternatives: &[u8], values: &mut [f64]) -> Cursor
    requires { Room line.now values.old c × (length alternatives.now ≤ line_bytes) }
    ensures { Takes (optional (cut_at_bars alternatives.now)) line.now values.old
        values.new c result }
{
    let r = take_one_of(line, c, alternatives, values);
    if r.ok {
        return r;
    }
    with_number(c, 0)
}
