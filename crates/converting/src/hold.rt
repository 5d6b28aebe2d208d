// Whether a text in the new form can do without its holds.
ghost use Rattle.std.specs.Prelude.{◌≡◌};
ghost use Rattle.model.specs.Rules.{every};
ghost use Rattle.conversion.specs.Conversion.{lines_of};
ghost use Rattle.conversion.specs.Code.LineEnds.{loses_none};
ghost use Rattle.converting.specs.Code.Lines.{InLines};

use crate::line::{Line, line_at};
use townfile::mark::{ARC, SPACE};

// The line is no arc's, or its last field is 0: it ends in a space and 0.
#[tactic(auto, using(crate::proofs::LineMark::mark_long))]
fn unheld_line(line: &Line) -> bool
    ensures { result ≡ loses_none line.now.bytes.now }
{
    if line.mark != ARC {
        return true;
    }
    let end = line.bytes.len();
    if line.bytes[end - 2] != SPACE {
        return false;
    }
    line.bytes[end - 1] == b'0'
}

// Every arc's hold is 0. The lines are walked by hand, as where they are put: `split` would give an empty piece behind the last.
pub(crate) fn all_unheld(text: &[u8]) -> bool
    requires { InLines text.now }
    ensures { result ≡ every loses_none (lines_of text.now) }
{
    let mut at = 0;
    while at < text.len() {
        let line = line_at(text, at);
        if !unheld_line(&line) {
            return false;
        }
        at += line.bytes.len() + 1;
    }
    true
}
