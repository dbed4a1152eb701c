// Runs the edges that stand in text files (docs/EDGES.md): each line is a call with its arguments and the answer that the papers give. Writes how many of
// each group's lines were as expected, each line that was not, and a verdict.
#![tactic(auto)]

mod calls;
mod file;
mod sweep;

use edge_lines::areas::front;
use edge_lines::print;
use std::env::FillError;
use std::rt::Env;
use trials::tally::Tally;

// How many arguments the program was started with, its own name among them.
fn argument_count(rt: &HostRuntime) -> usize {
    let mut name = [0u8; 256];
    (0..usize::MAX)
        .find(|i| matches!(rt.arg(*i, &mut name), Err(FillError::NotPresent)))
        .unwrap_or(usize::MAX)
}

fn run_argument(rt: &HostRuntime, i: usize) -> Tally {
    let mut name = [0u8; 256];
    let len = rt.arg(i, &mut name).unwrap_or(0);
    file::run_file(rt, front(&name, len))
}

fn print_verdict(total: Tally) {
    print::text(b"edges: ");
    if total.tried == 0 {
        print::text(b"nothing was tried\n");
    } else if total.all_passed() {
        print::text(b"all ");
        print::number(total.tried);
        print::text(b" lines as expected\n");
    } else {
        print::number(total.failed());
        print::text(b" of ");
        print::number(total.tried);
        print::text(b" lines differ\n");
    }
}

fn main(rt: HostRuntime) {
    let files = argument_count(&rt);
    let mut total = Tally::default();
    for i in 1..files {
        total += run_argument(&rt, i);
    }
    print_verdict(total);
}
