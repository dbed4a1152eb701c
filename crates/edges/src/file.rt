// A file's lines, one after the other, and its groups.
use crate::{calls, sweep};
use edge_lines::answer::Answer;
use edge_lines::areas::{front, put};
use edge_lines::args::{Args, read_args};
use edge_lines::bench::{Bench, IV, KEY, LENT};
use edge_lines::print;
use edge_lines::words::{Row, Setup, Word};
use text::parts::{field, field_count, line, line_count};
use trials::files::load;
use trials::tally::Tally;

fn is_note(s: &[u8]) -> bool {
    s.starts_with(b"#")
}

// A line, and where it stands.
#[derive(Clone, Copy)]
struct Line<'a> {
    file: &'a [u8],
    k: usize,
    text: &'a [u8],
}

impl Line<'_> {
    // How many fields it has without a note.
    fn fields(self) -> usize {
        let n = field_count(self.text);
        let last = n.wrapping_sub(1);
        if is_note(field(self.text, last)) {
            last
        } else {
            n
        }
    }

    fn print(self) {
        print::text(self.file);
        print::text(b":");
        print::number((self.k as u64).wrapping_add(1));
        print::text(b": ");
        print::text(self.text);
        print::text(b"\n    ");
    }

    // A line that is not as expected is told, with what was answered: nothing, where it cannot be read or carried out.
    fn tell(self, answer: Option<Answer>, out: &[u8]) {
        self.print();
        match answer {
            Some(answer) => answer.print(out),
            None => print::text(b"cannot be read or carried out\n"),
        }
    }

    // Whether it is as expected, where its arguments end at a field.
    fn judge(self, end: usize, answer: Option<Answer>, out: &[u8]) -> Tally {
        let parted = matches!(field(self.text, end), b"=");
        let good = parted
            && answer.is_some_and(|answer| {
                answer.matches(self.text, end.wrapping_add(1), self.fields(), out)
            });
        if !good {
            self.tell(answer, out);
        }
        Tally::of(good)
    }

    // A line that prepares is told, and counts, only where it cannot be carried out.
    fn judge_prepared(self, end: usize, ok: bool) -> Tally {
        if ok && self.fields() == end {
            return Tally::default();
        }
        self.tell(None, &[]);
        Tally::of(false)
    }
}

// Where a run of a file's lines stands: what lasts, the group's tally and the tally of all before it, and the line that names the group.
#[derive(Drop)]
struct Run<'a, 'b> {
    file: &'a [u8],
    text: &'a [u8],
    bench: &'b mut Bench,
    group: Tally,
    before: Tally,
    name: Option<&'a [u8]>,
}

impl<'a> Run<'a, '_> {
    fn answer(&mut self, word: Word, line: &[u8], args: Args) -> Option<Answer> {
        let bench = &mut *self.bench;
        match word {
            Word::Call(call) => Some(calls::checked_call(call, args, bench)),
            Word::At => sweep::at(line, args, bench),
            Word::Same => sweep::same(args, bench),
            Word::Fill => sweep::fill(args, bench),
            Word::Bits => sweep::bits(line, args, bench),
            Word::Each => sweep::each(line, args, bench),
            Word::Setup(_) => None,
        }
    }

    // A line whose arguments can be read is carried out.
    fn run_answering(&mut self, row: Row, line: Line) -> Tally {
        let answer = match read_args(row.kinds, line.text, self.bench) {
            Ok(args) => self.answer(row.word, line.text, args),
            Err(_) => None,
        };
        line.judge(row.end(), answer, self.bench.reg(LENT, 1024))
    }

    fn run_preparing(&mut self, word: Setup, row: Row, line: Line) -> Tally {
        let (ok, args) = match read_args(row.kinds, line.text, self.bench) {
            Ok(args) => (true, args),
            Err(args) => (false, args),
        };
        let done = self.bench.prepare(word, line.text, args);
        line.judge_prepared(row.end(), ok && done)
    }

    // The group's name without the mark, and its tally.
    fn print_group(&self) {
        if let Some(name) = self.name {
            print::text(name.get(2..).unwrap_or(name));
            print::text(b": ");
            print::number(self.group.passed);
            print::text(b" of ");
            print::number(self.group.tried);
            print::text(b"\n");
        }
    }

    // The group that a line begins.
    fn begin_group(&mut self, name: &'a [u8]) {
        self.print_group();
        self.before += self.group;
        self.group = Tally::default();
        self.name = Some(name);
    }

    fn run_line(&mut self, k: usize) {
        let text = line(self.text, k);
        let line = Line {
            file: self.file,
            k,
            text,
        };
        if text.is_empty() {
            return;
        }
        if is_note(text) {
            return self.begin_group(text);
        }
        let tally = match Row::of(field(text, 0)) {
            Some(row) => match row.word {
                Word::Setup(word) => self.run_preparing(word, row, line),
                _ => self.run_answering(row, line),
            },
            None => line.judge(0, None, &[]),
        };
        self.group += tally;
    }
}

// The key and the IV that a file begins with.
fn put_key_and_iv(bench: &mut Bench) {
    put(bench.reg_mut(KEY), 0, b"the device's key");
    put(bench.reg_mut(IV), 0, b"the iv 8");
}

fn run_text<'a>(file: &'a [u8], text: &'a [u8]) -> Tally {
    let mut bench = Bench::new();
    put_key_and_iv(&mut bench);
    let mut run = Run {
        file,
        text,
        bench: &mut bench,
        group: Tally::default(),
        before: Tally::default(),
        name: None,
    };
    for k in 0..line_count(text) {
        run.run_line(k);
    }
    run.print_group();
    let mut total = run.before;
    total += run.group;
    total
}

// A file that is missing, too long, or has nothing to try counts as one line that differs.
pub fn run_file(rt: &HostRuntime, path: &[u8]) -> Tally {
    let mut text = [0u8; 131072];
    let n = load(rt, path, &mut text).unwrap_or(0);
    let mut tally = run_text(path, front(&text, n));
    if tally.tried == 0 || text.len() <= n {
        print::text(path);
        print::text(b": nothing to try, or too long\n");
        tally += Tally::of(false);
    }
    tally
}
