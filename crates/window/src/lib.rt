// A window on host memory, a lent run of 32-bit words with a start address: its form, and the place of an address in it.
#![tactic(auto)]

ghost use Rattle.std.specs.Prelude.{◌≡◌};
ghost use Rattle.machine.specs.Window.{place_of, inside, is_window_out_of_form};

use machine::WORD_BYTES;

// The most words that a window may have.
const WINDOW_MAX: usize = 16384;

// Code 2, window out of form.
#[tactic(auto, unfolding(machine::specs::Window::is_window_out_of_form))]
pub fn is_window_out_of_form(start: u32, words: usize) -> bool
    ensures { result ≡ is_window_out_of_form start words }
{
    (start % WORD_BYTES != 0) | (WINDOW_MAX < words)
}

// The place of an address in a window that begins at start.
pub fn place(start: u32, address: u32) -> u32
    ensures { result ≡ place_of start address }
{
    std::num::wrapping_sub_u32(address, start) / WORD_BYTES
}

// Whether an address belongs to a window of so many words.
pub fn is_inside(start: u32, words: usize, address: u32) -> bool
    ensures { result ≡ inside start words address }
{
    (place(start, address) as usize) < words
}
