// How far a piece is read. Its methods stand in `lib.rt`, as their contracts name the struct.
ghost use Rattle.std.specs.Prelude.{◌≡◌, ◌≤◌, length};

// The place of the next byte, and the first bytes of the line that has not ended there.
#[derive(Clone, Copy)]
pub struct Progress {
    pub at: usize,
    pub bytes: [u8; 14],
    pub len: usize,
    ghost few: { len ≤ 14 },
    ghost whole: { length bytes ≡ 14 },
}
