// The program that says why lines are refused: `explain < lines`. It prints one explanation a line, which
// `explanations` makes; the loop over the lines is that of `shown_lines`.
#![tactic(auto)]

use arguments::Command;
use shown_lines::Maker;

fn write_help(rt: HostRuntime) {
    arguments::write_text(
        rt,
        b"explain",
        b"usage: explain < LINES\n\
        Says of each line to the card program, in a sentence, why it is refused, or that it is accepted.\n\
        --help prints this, --version the version; explain(1) says more.\n",
    );
}

// Each program has a `main` of its own, with its name, texts and maker.
fn main(rt: HostRuntime) {
    match arguments::read(rt) {
        Command::Run => shown_lines::show_input(rt, Maker::Explanations),
        Command::Help => write_help(rt),
        Command::Version => arguments::write_text(rt, b"explain", b"explain 0.1.0\n"),
        Command::Unknown => {
            let _ = rt
                .stderr()
                .write_all(b"explain: unknown argument; see explain --help\n");
        }
    }
}
