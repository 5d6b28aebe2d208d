// The header and a line for each junction.
ghost use Rattle.std.specs.Prelude.{◌≡◌, false, ◌≤◌, length};
ghost use Rattle.formatting.specs.Output.{Puts};
ghost use Rattle.formatting.specs.Printed.{Printed};
ghost use Rattle.arrivals_text.specs.Answer.{junction_line_lem, junction_lines, table_text};
ghost use Rattle.arrivals_text.specs.Code.Tables.{TableFits};

use formatting::output::Output;
use formatting::text::{OUTPUT, Text};
use model::label::{NO_ARC, UNREACHED};
use townfile::mark::{LINE_FEED, SPACE};

fn put_line(output: &mut Output, junction: u32, label: u32, predecessor: u16)
    ensures { Puts (junction_line_lem junction label predecessor) output.old output.new }
{
    output.put_number(junction);
    output.put_byte(SPACE);
    output.put_number_unless(UNREACHED, label);
    output.put_byte(SPACE);
    output.put_number_unless(NO_ARC as u32, predecessor as u32);
    output.put_byte(LINE_FEED);
}

fn put_lines(output: &mut Output, labels: &[u32], predecessors: &[u16])
    requires predecessors_len { length predecessors.now ≡ length labels.now }
    requires labels_len_bound { length labels.now ≤ 200 }
    ensures { Puts (junction_lines 0 labels.now predecessors.now) output.old output.new }
{
    for (junction, &label) in labels.iter().enumerate() {
        put_line(output, junction as u32, label, predecessors[junction]);
    }
}

pub(crate) fn put_table(buffer: &mut [u8; OUTPUT], labels: &[u32], predecessors: &[u16]) -> Text
    requires { TableFits labels.now predecessors.now }
    ensures { Printed (table_text labels.now predecessors.now) false buffer.old buffer.new result }
{
    let mut output = Output::new(buffer);
    output.put_text(b"junction arrival arc\n");
    put_lines(&mut output, labels, predecessors);
    Text {
        length: output.length,
        refused: false,
    }
}
