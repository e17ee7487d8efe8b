// A window in form, by where it stands.
#![tactic(auto)]

ghost use Rattle.std.specs.Prelude.{◌≡◌, true, false, ◌≤◌, MatchResult};
ghost use Rattle.machine.specs.Window.{is_window_out_of_form};
ghost use Rattle.records.specs.Window.{byte_place};
ghost use Rattle.records.specs.Load.{all_inside};

use machine::Refusal;

// Where a window in form stands: from a start address on, so many words.
#[derive(Clone, Copy)]
pub(crate) struct Span {
    pub(crate) start: u32,
    pub(crate) words: usize,
    ghost few: { words ≤ 16384 },
}

impl Span {
    // Of a start address and a number of words, if they are in form.
    pub(crate) fn new(start: u32, words: usize) -> Result<Span, Refusal>
        ensures { MatchResult result (λ s. (is_window_out_of_form start words ≡ false) × (s.start ≡ start) × (s.words ≡ words)) (λ r. (is_window_out_of_form start words ≡ true) × (r ≡ Refusal.WindowOutOfForm)) }
    {
        if window::is_window_out_of_form(start, words) {
            return Err(Refusal::WindowOutOfForm);
        }
        Ok(Span { start, words })
    }

    // The place of an address among the window's bytes.
    pub(crate) fn place(self, address: u32) -> u32
        ensures { result ≡ byte_place self.start address }
    {
        address.wrapping_sub(self.start)
    }

    // Whether so many addresses from one on belong to the window: the first is so far from its end.
    pub(crate) fn has_all(self, address: u32, count: u8) -> bool
        ensures { result ≡ all_inside self.start self.words address count }
    {
        (count == 0) | (self.place(address) as usize + count as usize <= 4 * self.words)
    }
}
