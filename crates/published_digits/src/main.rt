// Holds the tables of gauss_kronrod against QUADPACK's published decimals, which stand in the file stdin, one a line,
// in the tables' order: each entry must be the f64 nearest to its decimal. The decimal must lie between the midpoints
// to the two neighbouring f64s; nothing rounds it. A midpoint is n / 2^60, so that multiplying by ten gives its own
// digits exactly.
//
// Document 01, "Reviewer's checklist": the published digits are executed and checked.
#![tactic(auto)]

ghost use Rattle.std.specs.Prelude.{◌≤◌};

use std::cmp::Ordering;
use std::io;
use std::io::Read;
use std::num::{wrapping_add_u64, wrapping_sub_u64};

const ENTRIES: usize = 20;

// The number 1 in units of 2^-60.
const ONE: u64 = 0x1000_0000_0000_0000;

fn wide(byte: u8) -> u64 {
    byte as u64
}

// Returns how n / 2^60 compares with the decimal 0.DDD.. that has the given digits.
fn compare(n: u64, digits: &[u8]) -> Ordering {
    if n >= ONE {
        return Ordering::Greater;
    }
    let mut rest = n;
    for published in digits {
        let digit = 48 + rest * 10 / ONE;
        let order = digit.cmp(&wide(*published));
        if order.is_ne() {
            return order;
        }
        rest = rest * 10 % ONE;
    }
    rest.cmp(&0)
}

// Tells whether the f64 with the bit pattern b is the nearest to the decimal. It returns false for an f64 unlike the
// entries: one other than 0 that does not lie between 2^-6 and 1, or a power of two, whose lower neighbour is nearer.
fn is_nearest(b: u64, digits: &[u8]) -> bool {
    if b == 0 {
        return compare(0, digits).is_eq();
    }
    let exponent = b / 0x10_0000_0000_0000;
    let fraction = b % 0x10_0000_0000_0000;
    if exponent < 1017 || fraction == 0 {
        return false;
    }
    if 1022 < exponent {
        return false;
    }
    // In halves of its last place, 2^(exponent − 1016) / 2^60 each, the f64 is even, and the midpoints are one less and
    // one more.
    let halves = 2 * (0x10_0000_0000_0000 + fraction);
    compare((halves - 1) << (exponent - 1016), digits).is_lt()
        && compare((halves + 1) << (exponent - 1016), digits).is_gt()
}

// Returns entry e of the three tables, one after another.
fn entry(e: usize) -> f64 {
    if e < 8 {
        return gauss_kronrod::node(e);
    }
    if e < 16 {
        return gauss_kronrod::kronrod_weight(e - 8);
    }
    gauss_kronrod::gauss_weight(e - 16)
}

fn print_name(rt: HostRuntime, e: usize) {
    if e < 8 {
        let _ = print!(rt; "node {e}");
        return;
    }
    if e < 16 {
        let _ = print!(rt; "Kronrod weight {}", e - 8);
        return;
    }
    let _ = print!(rt; "Gauss weight {}", e - 16);
}

// Reads the next line, `0.` and 33 digits, and prints whether entry e, and neither of its neighbours, is the nearest to
// it. Returns 1 if so, else 0.
fn check_entry(rt: HostRuntime, e: usize) -> u64
    ensures { result ≤ 1 }
{
    let mut line = [0u8; 36];
    let _ = rt.stdin().read_exact(&mut line);
    let digits = &line[2..35];
    print_name(rt, e);
    let b = floats::to_bits(entry(e));
    if is_nearest(wrapping_sub_u64(b, 1), digits) || is_nearest(wrapping_add_u64(b, 1), digits) {
        let _ = println!(rt; " has a nearer neighbour");
        return 0;
    }
    if is_nearest(b, digits) {
        let _ = println!(rt; " nearest");
        return 1;
    }
    let _ = println!(rt; " not nearest");
    0
}

// Checks every entry and returns how many are the nearest.
fn check_all(rt: HostRuntime) -> u64 {
    let mut nearest = 0u64;
    for e in 0..ENTRIES {
        nearest += check_entry(rt, e);
    }
    nearest
}

fn main(rt: HostRuntime) -> io::Result<()> {
    let nearest = check_all(rt);
    println!(rt; "{nearest} of 20 entries are the nearest f64")
}
