// Why a line is refused, in a sentence for people (docs/FORMS.md, "Why was my line refused?").
//
// The word at fault is the first after which no ending saves the line. Endings are the rests of examples of every form,
// and the line that a start and an ending make up is answered as any other, so that the forms are written down once.
#![tactic(auto)]

ghost use Rattle.std.specs.Prelude.{◌++◌, ◌≡◌, ◌+◌, ◌≤◌, ◌<◌, length, take, drop, get_or};
ghost use Rattle.texts.specs.Appended.{Appended};
ghost use Rattle.tokens.specs.Text.{text};
ghost use Rattle.tokens.specs.Tokens.{line_bytes};
ghost use Rattle.templates.specs.Matching.{cut_at_bars};
ghost use Rattle.blocks.specs.Tables.{text_for};
ghost use Rattle.explanations.specs.Places.{IsPlace};
ghost use Rattle.explanations.specs.Faults.{fault_in, fault_of};
ghost use Rattle.explanations.specs.Endings.{saves_from, saves_with, saves_here, saved, passes, fault_place};
ghost use Rattle.explanations.specs.Endings.{wanted_word, wanted_of, wanted_text};
ghost use Rattle.explanations.specs.Examples.{examples, form_words, details};
ghost use Rattle.explanations.specs.Explanations.{detail_key, edges_text, detail_text, expected_text, short_end};
ghost use Rattle.explanations.specs.Explanations.{shown_text, byte_text, at_place, is_placed, place_text, fault_text};
ghost use Rattle.explanations.specs.Explanations.{explained};
ghost use Rattle.explanations.specs.Explanations.{too_long, kept_explanation, numbered_kept};

use answers::{Reply, Shape};
use lent_engines::{ENGINE_COUNTS, ENGINE_NUMBERS};
use limits::SCRATCH_NUMBERS;
use templates::{LINE_FIGURES, bar_end};
use tokens::{LINE_BYTES, TokenRange};

// What a line is refused for: the number and the values that go with it.
#[derive(Clone, Copy, PartialEq, Eq)]
pub struct Fault {
    pub number: u64,
    pub first: u64,
    pub second: u64,
}

// Returns what an answer says of a refusal.
fn fault_in(reply: Reply) -> Option<Fault>
    ensures { result ≡ fault_in reply }
{
    let counts = reply.counts;
    match reply.shape {
        Shape::Refused => Some(Fault {
            number: counts[0],
            first: counts[1],
            second: counts[2],
        }),
        _ => None,
    }
}

// Returns what a line that stands alone is refused for, if it is: the answer is that of a program which has read
// nothing else. The compiler may not copy it into its callers: its arrays take some 52 kB of stack, and of its two
// callers one runs inside the other, so that they would be there twice.
#[inline(never)]
fn fault_of(line: &[u8]) -> Option<Fault>
    ensures { result ≡ fault_of line.now }
{
    let mut values = [0.0; LINE_FIGURES];
    let mut scratch = [0.0; SCRATCH_NUMBERS];
    let mut numbers = [0.0; ENGINE_NUMBERS];
    let mut counts = [0; ENGINE_COUNTS];
    let reply = lines::reply_line(line, &mut values, &mut scratch, &mut numbers, &mut counts);
    fault_in(reply)
}

// Tells whether a line with the fault `other`, or none, is saved from `fault`: it is a form, and refused for something
// else or not at all. An ending by which it is 5 or 19 does not fit, and saves from 18 alone.
fn saves_from(fault: Fault, other: Option<Fault>) -> bool
    ensures { result ≡ saves_from fault other }
{
    match other {
        None => true,
        Some(other) => {
            let fits = (other.number != 5) & (other.number != 19);
            (other.number != 18) & ((other != fault) & ((fault.number == 18) | fits))
        }
    }
}

// Tells whether an ending saves a line that begins with the first n bytes of `trial`.
fn saves_with(trial: &mut [u8], n: usize, ending: &[u8], fault: Fault) -> bool
    requires { n + length ending.now ≤ length trial.old }
    ensures value { result ≡ saves_with fault (take n trial.old) ending.now }
    ensures trial_unchanged { take n trial.new ≡ take n trial.old }
{
    let m = texts::put_bytes(trial, n, ending);
    let other = fault_of(&trial[..m]);
    saves_from(fault, other)
}

// Tells whether an ending begins at place j of the examples, and saves the line.
fn saves_here(trial: &mut [u8], n: usize, endings: &[u8], j: usize, fault: Fault) -> bool
    requires { (n + length endings.now ≤ length trial.old) × (j < length endings.now) }
    ensures value { result ≡ saves_here fault (take n trial.old) (get_or endings.now j 0)
        (drop j endings.now) }
    ensures trial_unchanged { take n trial.new ≡ take n trial.old }
{
    if endings[j] != 32 {
        return false;
    }
    let end = bar_end(endings, j);
    saves_with(trial, n, &endings[j..end], fault)
}

// Tells whether some ending saves a line that begins with the first n bytes of `trial`.
fn is_saved(trial: &mut [u8], n: usize, endings: &[u8], fault: Fault) -> bool
    requires { n + length endings.now ≤ length trial.old }
    ensures value { result ≡ saved fault (take n trial.old) endings.now }
    ensures trial_unchanged { take n trial.new ≡ take n trial.old }
{
    for j in 0..endings.len() {
        if saves_here(trial, n, endings, j, fault) {
            return true;
        }
    }
    false
}

// Tells whether there is a token, and some ending saves a line that begins with all up to its end.
fn passes(line: &[u8], trial: &mut [u8], endings: &[u8], fault: Fault, f: TokenRange) -> bool
    requires { (length line.now + length endings.now ≤ length trial.old) × (f.to ≤ length line.now) }
    ensures { result ≡ passes fault endings.now line.now f }
{
    let to = f.to;
    if to <= f.from {
        return false;
    }
    let n = texts::put_bytes(trial, 0, &line[..to]);
    is_saved(trial, n, endings, fault)
}

// Returns the first token of the line that does not pass.
fn find_fault(line: &[u8], trial: &mut [u8], endings: &[u8], fault: Fault) -> TokenRange
    requires { length line.now + length endings.now ≤ length trial.old }
    ensures { IsPlace line.now (fault_place fault endings.now line.now) result }
{
    let mut at: usize = 0;
    for _turn in 0..LINE_BYTES {
        let f = tokens::next_token(line, at);
        if !passes(line, trial, endings, fault, f) {
            return f;
        }
        at = f.to;
    }
    TokenRange { from: at, to: at }
}

// Tells whether some ending saves a line that begins with the first k bytes of `trial` and a word.
fn word_saves(trial: &mut [u8], k: usize, endings: &[u8], fault: Fault, word: &[u8]) -> bool
    requires { k + length word.now + length endings.now ≤ length trial.old }
    ensures value { result ≡ saved fault (take k trial.old ++ word.now) endings.now }
    ensures trial_unchanged { take k trial.new ≡ take k trial.old }
{
    let m = texts::put_bytes(trial, k, word);
    is_saved(trial, m, endings, fault)
}

// Appends a space and the word, where that word saves a line that begins with the first k bytes of `trial`.
fn put_word(
    out: &mut [u8],
    n: usize,
    trial: &mut [u8],
    k: usize,
    endings: &[u8],
    fault: Fault,
    word: &[u8],
) -> usize
    requires { (n + length word.now + 1 ≤ length out.old)
        × (k + length word.now + length endings.now ≤ length trial.old) }
    ensures appended { Appended out.old n
        (wanted_word fault endings.now (take k trial.old) word.now)
        out.new result }
    ensures trial_unchanged { take k trial.new ≡ take k trial.old }
{
    if !word_saves(trial, k, endings, fault, word) {
        return n;
    }
    let space = texts::put_bytes(out, n, b" ");
    texts::put_bytes(out, space, word)
}

// Appends those words of a table, a bar between each two, that save a line that begins with the first k bytes of
// `trial`.
fn put_words(
    out: &mut [u8],
    n: usize,
    trial: &mut [u8],
    k: usize,
    endings: &[u8],
    fault: Fault,
    table: &[u8],
) -> usize
    requires { (n + length table.now + 1 ≤ length out.old)
        × (k + length table.now + length endings.now ≤ length trial.old) }
    ensures appended { Appended out.old n
        (wanted_of fault endings.now (take k trial.old) (cut_at_bars table.now))
        out.new result }
    ensures trial_unchanged { take k trial.new ≡ take k trial.old }
{
    let mut at = n;
    let mut i: usize = 0;
    loop {
        let end = bar_end(table, i);
        at = put_word(out, at, trial, k, endings, fault, &table[i..end]);
        if table.len() <= end {
            return at;
        }
        i = end + 1;
    }
}

// Appends what is wanted after the first k bytes of `trial`. Where a figure belongs, a line with any word is a form, so
// `F` is tried first.
fn put_wanted(
    out: &mut [u8],
    n: usize,
    trial: &mut [u8],
    k: usize,
    endings: &[u8],
    fault: Fault,
    table: &[u8],
) -> usize
    requires { (n + length table.now + 2 ≤ length out.old)
        × (k + length table.now + length endings.now + 1 ≤ length trial.old) }
    ensures { Appended out.old n
        (wanted_text fault endings.now table.now (take k trial.old))
        out.new result }
{
    if word_saves(trial, k, endings, fault, b"F") {
        return texts::put_bytes(out, n, b" F");
    }
    put_words(out, n, trial, k, endings, fault, table)
}

// Appends what is wanted where a line that is no form went wrong.
fn put_expected(
    out: &mut [u8],
    n: usize,
    line: &[u8],
    from: usize,
    trial: &mut [u8],
    endings: &[u8],
    fault: Fault,
    table: &[u8],
) -> usize
    requires { (n + length table.now + 20 ≤ length out.old) × (from ≤ length line.now)
        × (length line.now + length table.now + length endings.now + 2 ≤ length trial.old) }
    ensures { Appended out.old n
        (expected_text endings.now table.now line.now fault from)
        out.new result }
{
    let heading = texts::put_bytes(out, n, b"; wanted there:");
    let m = texts::put_bytes(trial, 0, &line[..from]);
    let k = texts::put_bytes(trial, m, b" ");
    put_wanted(out, heading, trial, k, endings, fault, table)
}

// Returns the end of a word's first 40 bytes.
fn short_end(from: usize, to: usize) -> usize
    requires { from ≤ to }
    ensures { result ≡ short_end from to }
{
    if to - from < 40 { to } else { from + 40 }
}

// Appends the word at fault, or its first 40 bytes.
fn put_shown(out: &mut [u8], n: usize, line: &[u8], f: TokenRange) -> usize
    requires { (n + 42 ≤ length out.old) × (f.from ≤ f.to) × (f.to ≤ length line.now) }
    ensures { Appended out.old n (shown_text line.now f) out.new result }
{
    let from = f.from;
    let end = short_end(from, f.to);
    let colon = texts::put_bytes(out, n, b": ");
    texts::put_bytes(out, colon, &line[from..end])
}

// Appends the number of a byte, counted from 1.
fn put_byte(out: &mut [u8], n: usize, from: usize) -> usize
    requires { (n + 27 ≤ length out.old) × (from ≤ line_bytes) }
    ensures appended { Appended out.old n (byte_text from) out.new result }
    ensures upper_bound { result ≤ n + 27 }
{
    let heading = texts::put_bytes(out, n, b"; byte ");
    counts::put_count(out, heading, (from + 1) as u64)
}

// Appends the place of the word at fault, and the word or, where the line is no form, what is wanted there.
fn put_place(
    out: &mut [u8],
    n: usize,
    line: &[u8],
    trial: &mut [u8],
    endings: &[u8],
    fault: Fault,
    table: &[u8],
) -> usize
    requires { (n + length table.now + 70 ≤ length out.old) × (length line.now ≤ line_bytes)
        × (length line.now + length table.now + length endings.now + 2 ≤ length trial.old) }
    ensures { Appended out.old n
        (at_place endings.now table.now line.now fault
        (fault_place fault endings.now line.now))
        out.new result }
{
    let f = find_fault(line, trial, endings, fault);
    let from = f.from;
    let byte = put_byte(out, n, from);
    if fault.number == 18 {
        return put_expected(out, byte, line, from, trial, endings, fault, table);
    }
    put_shown(out, byte, line, f)
}

// Tells whether a refusal is one word's: 2, 7, 8 and 13 are not.
fn is_placed(number: u64) -> bool
    ensures { result ≡ is_placed number }
{
    (number != 2) & ((number != 7) & ((number != 8) & (number != 13)))
}

// Appends where the line went wrong, by the examples of the forms, if one word is at fault.
fn put_where(out: &mut [u8], n: usize, line: &[u8], trial: &mut [u8], fault: Fault) -> usize
    requires { (n + 500 ≤ length out.old) × (length line.now ≤ line_bytes) × (8192 ≤ length trial.old) }
    ensures { Appended out.old n (place_text examples form_words line.now fault) out.new result }
{
    if !is_placed(fault.number) {
        return n;
    }
    put_place(
        out,
        n,
        line,
        trial,
        b" ( set ( limit 64 ) ( count 1 ) ( trapezoid 1 1 1 0 ) ( thickness 0.000001 ) ( section square ) \
        ( tab 0.000001 0.000001 0 ) ( fillet 0.000001 ( bulk 1 ) ) ( cant 0 ) ( base 0 ) ( radius 64 ) \
        ( bulk 1 ) ) | ( set ( limit 64 ) ( count 1 ) ( ellipse 1 1 ) ( thickness 0.000001 ) ( section \
        square ) ( tab 0.000001 0.000001 0 ) ( fillet 0.000001 ( bulk 1 ) ) ( cant 0 ) ( base 0 ) ( \
        radius 64 ) ( bulk 1 ) ) | ( set ( limit 64 ) ( count 1 ) ( outline 0 0 0.5 0.5 1 0 ) ( \
        thickness 0.000001 ) ( section square ) ( tab 0.000001 0.000001 0 ) ( fillet 0.000001 ( bulk 1 \
        ) ) ( cant 0 ) ( base 0 ) ( radius 64 ) ( bulk 1 ) ) | ( submit 1 ( set ( limit 64 ) ( count 1 \
        ) ( trapezoid 1 1 1 0 ) ( thickness 0.000001 ) ( section square ) ( tab 0.000001 0.000001 0 ) ( \
        fillet 0.000001 ( bulk 1 ) ) ( cant 0 ) ( base 0 ) ( radius 64 ) ( bulk 1 ) ) ) | ( submit 1 ( \
        set ( limit 64 ) ( count 1 ) ( ellipse 1 1 ) ( thickness 0.000001 ) ( section square ) ( tab \
        0.000001 0.000001 0 ) ( fillet 0.000001 ( bulk 1 ) ) ( cant 0 ) ( base 0 ) ( radius 64 ) ( bulk \
        1 ) ) ) | ( submit 1 ( set ( limit 64 ) ( count 1 ) ( outline 0 0 0.5 0.5 1 0 ) ( thickness \
        0.000001 ) ( section square ) ( tab 0.000001 0.000001 0 ) ( fillet 0.000001 ( bulk 1 ) ) ( cant \
        0 ) ( base 0 ) ( radius 64 ) ( bulk 1 ) ) ) | ( area ( limit 64 ) ( trapezoid 1 1 1 0 ) ) | ( \
        area ( limit 64 ) ( ellipse 1 1 ) ) | ( area ( limit 64 ) ( outline 0 0 0.5 0.5 1 0 ) ) | ( \
        drill ( trapezoid 1 1 1 0 ) ( at 0 0 ) ) | ( drill ( outline 0 0 0.5 0.5 1 0 ) ( at 0 0 ) ) | ( \
        join ( point 1 0 0 0 ) ) | ( moments 0 0 0 0 0 0 ) | ( check ( mass 1 ) ( centre 0 0 0 ) ( \
        inertia 0 0 0 0 0 0 ) ) | ( tubes ( count 1 ) ( length 1 ) ( outer 64 ) ( wall 0 ) ( base 0 ) ( \
        radius 1 ) ( bulk 1 ) ) | ( closing ( count 1 ) ( radius 1 ) ) | ( copied ( body ( mass 1 ) ( \
        centre 0 0 0 ) ( inertia 0 0 0 0 0 0 ) ) ( offset 0 0 ) ) | ( placed ( body ( mass 1 ) ( centre \
        0 0 0 ) ( inertia 0 0 0 0 0 0 ) ) ( place 0 0 0 ) ) | ( moved ( body ( mass 1 ) ( centre 0 0 0 \
        ) ( inertia 0 0 0 0 0 0 ) ) ( body ( mass 0 ) ( centre 0 0 0 ) ( inertia 0 0 0 0 0 0 ) ) ( \
        offset 0 0 0 ) ) | ( without ( body ( mass 1 ) ( centre 0 0 0 ) ( inertia 0 0 0 0 0 0 ) ) ( \
        body ( mass 0 ) ( centre 0 0 0 ) ( inertia 0 0 0 0 0 0 ) ) ) | ( density 1 ( bulk 1 ) ) | ( \
        turn ) | ( progress 1 ) |",
        fault,
        b"1|(|)|set|area|join|moments|check|tubes|closing|drill|copied|placed|moved|without|submit|density|turn|\
        progress|limit|count|trapezoid|ellipse|outline|thickness|section|square|rounded|airfoil|airfoil-open|tab|\
        fillet|cant|base|radius|bulk|surface|line|length|outer|wall|at|point|body|mass|centre|inertia|\
        offset|place",
    )
}

// Appends the two edges that touch.
fn put_edges(out: &mut [u8], n: usize, fault: Fault) -> usize
    requires { n + 60 ≤ length out.old }
    ensures { Appended out.old n (edges_text fault) out.new result }
{
    let heading = texts::put_bytes(out, n, b"; edges ");
    let first = counts::put_count(out, heading, fault.first);
    let between = texts::put_bytes(out, first, b" and ");
    counts::put_count(out, between, fault.second)
}

// Appends the table's text for a number and its first value, or nothing where it has none.
fn put_found(out: &mut [u8], n: usize, table: &[u8], fault: Fault) -> usize
    requires { (n + 100 ≤ length out.old) × (length table.now ≤ 4096)
        × (length (text_for (detail_key fault) (cut_at_bars table.now)) ≤ 100) }
    ensures { Appended out.old n (text_for (detail_key fault) (cut_at_bars table.now))
        out.new result }
{
    let mut key = [0u8; 64];
    let number = counts::put_count(&mut key, 0, fault.number);
    let space = texts::put_bytes(&mut key, number, b" ");
    let k = counts::put_count(&mut key, space, fault.first);
    match blocks::lookup::find(table, &key[..k]) {
        Some(p) => texts::put_bytes(out, n, &table[p.from..p.to]),
        None => n,
    }
}

// Appends what goes with the number: the edges of 7, or what the table has for it.
fn put_detail(out: &mut [u8], n: usize, fault: Fault) -> usize
    requires { n + 100 ≤ length out.old }
    ensures appended { Appended out.old n (detail_text details fault) out.new result }
    ensures upper_bound { result ≤ n + 100 }
{
    if fault.number == 7 {
        return put_edges(out, n, fault);
    }
    put_found(
        out,
        n,
        b"4 1|; root chord: 2^-20 m to 64 m|\
        4 2|; tip chord: 0, or 2^-20 m to 64 m|\
        4 3|; span: 2^-20 m to 64 m|\
        4 4|; sweep: 0, or 2^-20 m to 64 m either way|\
        4 5|; x of an outline's point: 0, or 2^-20 m to 64 m either way|\
        4 6|; height of an outline's point: 0, or 2^-20 m to 64 m|\
        4 7|; thickness: 2^-20 m to 64 m; a tube's wall may be 0|\
        4 8|; tab height: 2^-20 m to 64 m|\
        4 9|; tab length: 2^-20 m to 64 m|\
        4 10|; tab offset: 0, or 2^-20 m to 64 m either way|\
        4 11|; body radius: 0, or 2^-20 m to 64 m|\
        4 14|; tube length: 2^-20 m to 64 m|\
        4 15|; outer radius: 2^-20 m to 64 m|\
        4 16|; fillet radius: 0, or 2^-20 m to 64 m|\
        4 17|; drill x: 0, or 2^-20 m to 64 m either way|\
        4 18|; drill height: 0, or 2^-20 m to 64 m either way|\
        4 19|; offset: 0, or 2^-20 m to 64 m either way|\
        9 12|; cant: -4 to 4 rad|\
        9 13|; base angle: -4 to 4 rad|\
        9 20|; roll: -4 to 4 rad|\
        13 0|; component 0|\
        13 1|; component 1|\
        13 2|; component 2|\
        13 3|; component 3|\
        13 4|; component 4|\
        13 5|; component 5|\
        13 6|; component 6|\
        17 0|; an entry is not finite, or beyond 2^500|\
        17 1|; the mass is 0, and an entry is not|\
        17 3|; a moment is negative|\
        17 4|; two moments together are less than the third",
        fault,
    )
}

// Appends a refusal: its number and sentence, what goes with it, and where the line went wrong.
fn put_fault(out: &mut [u8], n: usize, line: &[u8], fault: Fault) -> usize
    requires { (n + 900 ≤ length out.old) × (length line.now ≤ line_bytes) }
    ensures { Appended out.old n (fault_text line.now fault) out.new result }
{
    let mut trial = [0u8; 8192];
    let heading = texts::put_bytes(out, n, b"refused ");
    let sentence = blocks::sentences::put_refusal(out, heading, fault.number);
    let detail = put_detail(out, sentence, fault);
    put_where(out, detail, line, &mut trial, fault)
}

// Appends the explanation of a line of at most 4,096 bytes.
fn put_explained(out: &mut [u8], n: usize, line: &[u8]) -> usize
    requires { (n + 900 ≤ length out.old) × (length line.now ≤ line_bytes) }
    ensures { Appended out.old n (explained line.now (fault_of line.now))
        out.new result }
{
    match fault_of(line) {
        None => texts::put_bytes(out, n, b"accepted"),
        Some(fault) => put_fault(out, n, line, fault),
    }
}

// Appends the explanation of a line that is too long.
fn put_long(out: &mut [u8], n: usize) -> usize
    requires { n + 900 ≤ length out.old }
    ensures { Appended out.old n too_long out.new result }
{
    texts::put_bytes(out, n, b"refused 18: the line has more than 4096 bytes")
}

// Appends the explanation of a line by the bytes that are kept of it; where `over` says that there were more, the line
// is too long.
fn put_kept(out: &mut [u8], n: usize, line: &[u8], over: bool) -> usize
    requires { n + 900 ≤ length out.old }
    ensures { Appended out.old n (kept_explanation line.now over) out.new result }
{
    if over {
        return put_long(out, n);
    }
    if LINE_BYTES < line.len() {
        return put_long(out, n);
    }
    put_explained(out, n, line)
}

// Writes a line's number and its explanation, by the bytes that are kept of it, at the start of out, and returns how
// many bytes they have. Where out is too short for any explanation, it writes nothing.
pub fn put_numbered(out: &mut [u8], number: u64, line: &[u8], over: bool) -> usize
    ensures { 1050 ≤ length out.old
        → Appended out.old 0 (numbered_kept number line.now over) out.new result }
{
    if out.len() < 1050 {
        return 0;
    }
    let word = texts::put_bytes(out, 0, b"line ");
    let digits = counts::put_count(out, word, number);
    let heading = texts::put_bytes(out, digits, b": ");
    let end = put_kept(out, heading, line, over);
    texts::put_bytes(out, end, b"\n")
}
