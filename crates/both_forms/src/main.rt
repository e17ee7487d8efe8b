// Runs the lines on standard input twice from reset and writes the two logs one after the other: first with the step by value
// and lines by position, then with the step in place and lines by a reader.
#![tactic(auto)]

use controller::Controller;
use logline::ENGLISH;
use step::Stepped;

// ---- lines: that at a position, and that after the line at another

fn by_position(text: &[u8], _before: usize, at: usize) -> &[u8] {
    lines::line_at(text, at)
}

fn by_reader(text: &[u8], before: usize, at: usize) -> &[u8] {
    if at == 0 {
        return lines::line_at(text, 0);
    }
    reader::line_after(text, before)
}

// ---- steps

fn by_value(c: Controller, memory: &mut [u32], line: &[u8]) -> Stepped {
    frame_log::answer_line(c, memory, 0, line)
}

fn in_place(c: Controller, memory: &mut [u32], line: &[u8]) -> Stepped {
    match frame::frame(line) {
        Some(s) => place::step_by_place(c, memory, 0, s),
        None => frame_log::answer_line(c, memory, 0, line),
    }
}

// The log by the forms that are passed.
fn write_log<R, L, S>(rt: &R, text: &[u8], line: L, step: S)
where
    R: Print,
    L: Fn(&[u8], usize, usize) -> &[u8],
    S: Fn(Controller, &mut [u32], &[u8]) -> Stepped,
    requires lines { L.IsAlwaysCallable line }
    requires steps { S.IsAlwaysCallable step }
{
    let mut memory = [0u32; 4096];
    let mut out = [0u8; 41];
    let mut c = controller::reset();
    let mut before = 0;
    let mut at = 0;
    while at < text.len() {
        let t = step(c, &mut memory, line(text, before, at));
        c = t.controller;
        let n = logline::put_line(&mut out, 0, t.answer, ENGLISH);
        let _ = rt.write_all(&out[..n]);
        before = at;
        at = lines::past_line(text, at);
    }
}

fn main(rt: HostRuntime) {
    let mut text = [0u8; 65536];
    let n = streams::read_full(&mut rt.reader(), &mut text);
    write_log(&rt, &text[..n], by_position, by_value);
    write_log(&rt, &text[..n], by_reader, in_place);
}
