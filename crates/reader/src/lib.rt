// A line reader: a text and a position in it. Its lines are parts of the text, not copies. The functions of `lines`, on a text and a position, do the work.
#![tactic(auto)]

ghost use Rattle.std.specs.Prelude.{◌≡◌};
ghost use Rattle.lines.specs.Lines.{past_line, Part};

#[derive(Clone, Copy)]
pub struct LineReader<'a> {
    pub text: &'a [u8],
    pub at: usize,
}

impl<'a> LineReader<'a> {
    // The reader at a position of a text: any number, 0 for the text's start.
    pub fn reader_at(text: &'a [u8], at: usize) -> LineReader<'a>
        ensures { result ≡ record { text = text.entry; at = at } }
    {
        LineReader { text, at }
    }

    // The line at the reader's position, without its LF, as a part of the text. There is one exactly if the position is less than the
    // text's length; else the part is empty.
    pub fn line(self) -> &'a [u8]
        ensures { Part self.entry.text self.entry.at result }
    {
        lines::line_at(self.text, self.at)
    }

    // The reader past that line and its LF; where there is none, the same reader.
    pub fn past(self) -> LineReader<'a>
        ensures { result ≡ record { text = self.entry.text; at = past_line self.entry.text.now self.entry.at } }
    {
        LineReader {
            at: lines::past_line(self.text, self.at),
            ..self
        }
    }
}

// The line after the one at a position, by a reader: text and number on the outside, so code that calls it holds no reader. There
// is one exactly if the position past the line is less than the text's length; else the part is empty.
pub fn line_after(text: &[u8], at: usize) -> &[u8]
    ensures { Part text.entry (past_line text.now at) result }
{
    LineReader::reader_at(text, at).past().line()
}
