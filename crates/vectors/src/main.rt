// Runs the vectors of data/ through the crate cipher, as data/trials.tsv lists them. Writes for each entry of the list how many
// trials gave what is expected, of how many, and before that each line that differs; the last line is the verdict.
#![tactic(auto)]

mod cases;
mod counter;
mod fields;
mod list;

use cases::Case;
use list::Entry;
use text::parts::{field, line, line_count};
use trials::files::load;
use trials::print;
use trials::tally::Tally;

fn print_entry(entry: &[u8]) {
    print::text(field(entry, 0));
    print::text(b" ");
    print::text(field(entry, 1));
    print::text(b": ");
}

// A file or a list that has no rows is one trial that differs.
fn before(rows: usize) -> Tally {
    if rows == 0 {
        Tally::of(false)
    } else {
        Tally::default()
    }
}

// A line that cannot be read is one trial that differs.
fn run_fields(entry: Entry, text: &[u8], index: usize) -> Tally {
    let Some(case) = Case::read(entry, text, index) else {
        return Tally::of(false);
    };
    let mut tally = Tally::default();
    for place in 0..case.places() {
        tally += Tally::of(case.passes(place));
    }
    tally
}

// The line at an index, counted from 0 after the header.
fn run_line(words: &[u8], entry: Entry, text: &[u8], index: usize) -> Tally {
    let tally = run_fields(entry, text, index);
    if !tally.all_passed() {
        print_entry(words);
        print::text(b"line ");
        print::number((index as u64).wrapping_add(2));
        print::text(b" differs\n");
    }
    tally
}

// How many lines stand after the one that names the columns.
fn rows(text: &[u8]) -> usize {
    if text.starts_with(b"# ") {
        line_count(text).saturating_sub(1)
    } else {
        0
    }
}

fn run_lines(words: &[u8], entry: Entry, text: &[u8]) -> Tally {
    let rows = rows(text);
    let mut tally = before(rows);
    for index in 0..rows {
        tally += run_line(words, entry, text, index);
    }
    tally
}

// An entry that cannot be read is one trial that differs, and so is a file that cannot be opened or fills the buffer.
fn run_file(rt: &HostRuntime, words: &[u8]) -> Tally {
    let Some(entry) = Entry::read(words) else {
        return Tally::of(false);
    };
    let mut buf = io::large_buffer();
    match load(rt, entry.file, &mut buf) {
        Some(n) if n < buf.len() => run_lines(words, entry, &buf[..n]),
        _ => Tally::of(false),
    }
}

fn run_entry(rt: &HostRuntime, words: &[u8]) -> Tally {
    let tally = run_file(rt, words);
    print_entry(words);
    print::number(tally.passed);
    print::text(b" of ");
    print::number(tally.tried);
    print::text(b"\n");
    tally
}

fn run_list(rt: &HostRuntime, list: &[u8]) -> Tally {
    let rows = rows(list);
    let mut tally = before(rows);
    for k in 0..rows {
        tally += run_entry(rt, line(list, k.wrapping_add(1)));
    }
    tally
}

fn print_verdict(tally: Tally) {
    print::text(b"vectors: ");
    if tally.all_passed() {
        print::text(b"all ");
        print::number(tally.tried);
        print::text(b" trials as expected\n");
    } else {
        print::number(tally.failed());
        print::text(b" of ");
        print::number(tally.tried);
        print::text(b" trials differ\n");
    }
}

fn main(rt: HostRuntime) {
    let mut buf = io::buffer();
    let total = match load(&rt, b"trials.tsv", &mut buf) {
        Some(n) if n < buf.len() => run_list(&rt, &buf[..n]),
        _ => Tally::of(false),
    };
    print_verdict(total);
}
