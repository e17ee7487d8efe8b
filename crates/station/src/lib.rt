// The C calls: a log, and a window as HEX text.
#![tactic(auto)]

ghost use Rattle.std.specs.Prelude.{◌≡◌};
ghost use Rattle.station.specs.Call.{CallPromised};
ghost use Rattle.station.specs.HexCalls.{Fits, exported_number, length_result, ExportPromised, LoadPromised};

use frame_log::NoRoom;
use machine::{Refusal, codes};

// The longest input, in bytes.
const INPUT_MOST: usize = 1_048_576;

// Runs the input on a controller fresh from reset, over 4,096 words of zeros from address 0 on, and writes the log from the
// output's start, with the labels of a set. It returns how many bytes the log has. It refuses, and writes nothing, by -2 an input
// above the limit, then by -3 a number that is no set, then by -1 an output shorter than 41 bytes a line.
#[unsafe(no_mangle)]
pub extern "C" fn s5933_log(input: &[u8], output: &mut [u8], set: u32) -> i64
    ensures { CallPromised set input.now output.old result output.new }
{
    if INPUT_MOST < input.len() {
        return -2;
    }
    if !logline::is_set(set) {
        return -3;
    }
    let mut memory = [0u32; 4096];
    let c = controller::reset();
    let r = frame_log::run(c, &mut memory, 0, input, output, set);
    match r.log {
        Ok(n) => n as i64,
        Err(NoRoom) => -1,
    }
}

// The number of a C call for what an export answers: the bytes of the text, or a refusal's number with a minus.
fn exported_number(exported: Result<usize, Refusal>) -> i64
    requires { Fits exported }
    ensures { result ≡ exported_number exported }
{
    match exported {
        Ok(n) => n as i64,
        Err(refusal) => 0 - u32::from(refusal) as i64,
    }
}

// How many bytes the HEX text of so many words from a start on has; -2 for a window out of form.
#[unsafe(no_mangle)]
pub extern "C" fn s5933_hex_length(count: usize, start: u32) -> i64
    ensures { result ≡ length_result start count }
{
    exported_number(hex_export::export_length(count, start))
}

// Writes the HEX text of a window from the output's start, and returns how many bytes it has. It refuses, and writes nothing, by -2 a
// window out of form, then by -24 an output that is shorter than the text.
#[unsafe(no_mangle)]
pub extern "C" fn s5933_hex_export(words: &[u32], start: u32, output: &mut [u8]) -> i64
    ensures { ExportPromised start words.now output.old result output.new }
{
    exported_number(hex_export::export(words, start, output))
}

// Loads a HEX text into a window, and returns 0. It refuses, and stores nothing, by -2 a window out of form, then by -16 to -19 the
// first bad record of the text.
#[unsafe(no_mangle)]
pub extern "C" fn s5933_hex_load(words: &mut [u32], start: u32, text: &[u8]) -> i64
    ensures { LoadPromised start words.old text.now result words.new }
{
    0 - codes::code(hex_load::load(words, start, text)) as i64
}
