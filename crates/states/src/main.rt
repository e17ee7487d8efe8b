// States, windows and numbers that frames cannot reach. Each line of standard input is a case in 43 numbers of 8 hexadecimal
// digits: the state, the window and the step; see `tests/second/cases`. For each it writes the log line of the step, and a
// line of numbers: the state left, the first word of memory that the step changed, if any, and the marks that it changed.
#![tactic(auto)]

use controller::{ByteCount, Controller, Lane};
use fifo::{Fifo, WordFill};
use logline::ENGLISH;
use machine::{Answer, Step};

// ---- a case

// The digits of its numbers, those that are not taken yet.
#[derive(Clone, Copy)]
struct Numbers<'a>(&'a [u8]);

impl Numbers<'_> {
    // The next number; zero past the line's end. A byte that is no digit counts as zero.
    fn next(&mut self) -> u32 {
        let (digits, rest) = self.0.split_at(self.0.len().min(8));
        self.0 = rest;
        let mut n: u32 = 0;
        for b in digits {
            let digit = hex_digits::digit_number(*b).unwrap_or(0);
            n = n.wrapping_mul(16).wrapping_add(u32::from(digit));
        }
        n
    }

    fn next_eight(&mut self) -> [u32; 8] {
        let mut words = [0; 8];
        for word in &mut words {
            *word = self.next();
        }
        words
    }

    // A lane without its right, which stands elsewhere: fill, eight words, address, count.
    fn next_lane(&mut self) -> Lane {
        let fill = WordFill(self.next());
        let words = self.next_eight();
        Lane {
            fifo: Fifo {
                words,
                head: 0,
                fill,
            },
            address: self.next(),
            count: ByteCount(self.next()),
            right: false,
        }
    }

    fn next_controller(&mut self) -> Controller {
        let mut c = Controller {
            mail: self.next_eight(),
            marks: self.next(),
            from_pci: self.next_lane(),
            from_addon: self.next_lane(),
            intcsr: self.next(),
            mcsr: self.next(),
            aint: self.next(),
        };
        c.from_addon.right = self.next() != 0;
        c.from_pci.right = self.next() != 0;
        c
    }

    fn next_step(&mut self) -> Step {
        Step {
            kind: self.next(),
            offset: self.next(),
            enables: self.next(),
            value: self.next(),
        }
    }
}

// ---- the window

// Memory word i is base + i.
fn fill(memory: &mut [u32], base: u32) {
    for (word, i) in memory.iter_mut().zip(0..u32::MAX) {
        *word = base.wrapping_add(i);
    }
}

// The place of the first word that is not base + i, and the word.
fn changed(memory: &[u32], base: u32) -> Option<(u32, u32)> {
    (0..u32::MAX)
        .zip(memory.iter().copied())
        .find(|(i, word)| *word != base.wrapping_add(*i))
}

// ---- what is written

fn write_numbers<R: Print>(rt: &R, numbers: &[u32]) {
    for n in numbers {
        let _ = rt.write_all(&eight::digits(*n));
    }
}

// A lane as it is read: of the words those that the FIFO holds, front first, zeros after them.
fn write_lane<R: Print>(rt: &R, l: Lane) {
    let fill = l.fifo.fill.0;
    let mut words = l.fifo.words;
    words.rotate_left(fifo::front_place(l.fifo.head));
    if let Some(past) = words.get_mut(fill as usize..) {
        past.fill(0);
    }
    write_numbers(rt, &[fill]);
    write_numbers(rt, &words);
    write_numbers(rt, &[l.address, l.count.0]);
}

// The state in the order of a case.
fn write_state<R: Print>(rt: &R, c: Controller) {
    write_numbers(rt, &c.mail);
    write_numbers(rt, &[c.marks]);
    write_lane(rt, c.from_pci);
    write_lane(rt, c.from_addon);
    let write_right = u32::from(c.from_addon.right);
    let read_right = u32::from(c.from_pci.right);
    write_numbers(rt, &[c.intcsr, c.mcsr, c.aint, write_right, read_right]);
}

fn write_answer<R: Print>(rt: &R, a: Answer) {
    let mut out = [0u8; 41];
    let n = logline::put_line(&mut out, 0, a, ENGLISH);
    let _ = rt.write_all(&out[..n]);
}

// One case. The window has as many words as it says, if there are so many.
fn run<R: Print>(rt: &R, line: &[u8], memory: &mut [u32]) {
    let mut numbers = Numbers(line);
    let c = numbers.next_controller();
    let start = numbers.next();
    let words = numbers.next() as usize;
    let base = numbers.next();
    let Some(window) = memory.get_mut(..words) else {
        return;
    };
    fill(window, base);
    let r = step::step(c, window, start, numbers.next_step());
    write_answer(rt, r.answer);
    write_state(rt, r.controller);
    // all ones and zero where no word changed
    let (place, word) = changed(window, base).unwrap_or((0xFFFF_FFFF, 0));
    write_numbers(rt, &[place, word, r.answer.changed]);
    let _ = rt.write_all(b"\n");
}

fn run_lines<R: Print>(rt: &R, text: &[u8]) {
    let mut memory = [0u32; 16385];
    for line in text.split_inclusive(|b| *b == b'\n') {
        run(rt, line.strip_suffix(b"\n").unwrap_or(line), &mut memory);
    }
}

fn main(rt: HostRuntime) {
    let mut text = [0u8; 524288];
    let n = streams::read_full(&mut rt.reader(), &mut text);
    run_lines(&rt, &text[..n]);
}
