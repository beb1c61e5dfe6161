// Shows answers of the card program as cards to read: `card < lines | readable`. Each line becomes one block, which
// `blocks` makes; the loop over the lines is that of `shown_lines`.
#![tactic(auto)]

use arguments::Command;
use shown_lines::Maker;

fn write_help(rt: HostRuntime) {
    arguments::write_text(
        rt,
        b"readable",
        b"usage: card < LINES | readable\n\
        Shows each answer of the card program as a block of text for people.\n\
        --help prints this, --version the version; readable(1) says more.\n",
    );
}

// Each program has a `main` of its own, with its name, texts and maker.
fn main(rt: HostRuntime) {
    match arguments::read(rt) {
        Command::Run => shown_lines::show_input(rt, Maker::Blocks),
        Command::Help => write_help(rt),
        Command::Version => arguments::write_text(rt, b"readable", b"readable 0.1.0\n"),
        Command::Unknown => {
            let _ = rt
                .stderr()
                .write_all(b"readable: unknown argument; see readable --help\n");
        }
    }
}
