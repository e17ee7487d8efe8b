// The C calls of `station` as C sees them: a log, and a window as HEX text. Each is the library's function, under its name and with its
// contract.
#![tactic(auto)]

ghost use Rattle.std.specs.Prelude.{◌≡◌};
ghost use Rattle.station.specs.Call.{CallPromised};
ghost use Rattle.station.specs.HexCalls.{length_result, ExportPromised, LoadPromised};

#[unsafe(no_mangle)]
pub extern "C" fn s5933_log(input: &[u8], output: &mut [u8], set: u32) -> i64
    ensures { CallPromised set input.now output.old result output.new }
{
    station::s5933_log(input, output, set)
}

#[unsafe(no_mangle)]
pub extern "C" fn s5933_hex_length(count: usize, start: u32) -> i64
    ensures { result ≡ length_result start count }
{
    station::s5933_hex_length(count, start)
}

#[unsafe(no_mangle)]
pub extern "C" fn s5933_hex_export(words: &[u32], start: u32, output: &mut [u8]) -> i64
    ensures { ExportPromised start words.now output.old result output.new }
{
    station::s5933_hex_export(words, start, output)
}

#[unsafe(no_mangle)]
pub extern "C" fn s5933_hex_load(words: &mut [u32], start: u32, text: &[u8]) -> i64
    ensures { LoadPromised start words.old text.now result words.new }
{
    station::s5933_hex_load(words, start, text)
}
