// A line of a text whose lines each end in a line feed.
ghost use Rattle.std.specs.Prelude.{◌≡◌, ◌<◌, length, drop};
ghost use Rattle.townfile.specs.Lines.{first_two};
ghost use Rattle.converting.specs.Code.Lines.{InLines, LineFound};

use fields::field::{line_end, mark_at};

// Without its line feed.
#[derive(Clone, Copy)]
pub(crate) struct Line<'a> {
    pub mark: u16,
    pub bytes: &'a [u8],
    ghost marked: { mark ≡ first_two bytes.now },
}

// `InLines` is a clause and no ghost field of a struct: the walk needs it of each rest of the text.
pub(crate) fn line_at(text: &[u8], at: usize) -> Line<'_>
    requires in_lines { InLines (drop at text.now) }
    requires at_in_bounds { at < length text.now }
    ensures { LineFound text.now at result.bytes.now }
{
    let mark = mark_at(text, at);
    let end = line_end(text, at);
    Line {
        mark,
        bytes: &text[at..end],
    }
}
