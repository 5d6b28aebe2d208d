// A line for each junction.
ghost use Rattle.std.specs.Prelude.{false, ◌*◌, ◌≤◌, length};
ghost use Rattle.formatting.specs.Output.{Puts};
ghost use Rattle.formatting.specs.Printed.{Printed};
ghost use Rattle.sheet_text.specs.Answer.{spaced, sheet_line, sheet_lines};
ghost use Rattle.sheet_text.specs.Code.Parts.{LinesFit};

use formatting::output::Output;
use formatting::text::{OUTPUT, Text};
use sheeting::sheet::FIGURES;
use townfile::mark::{LINE_FEED, SPACE};

fn put_figure(output: &mut Output, figure: u32)
    ensures { Puts (spaced figure) output.old output.new }
{
    output.put_byte(SPACE);
    output.put_number(figure);
}

fn put_line(output: &mut Output, junction: u32, count: u32, least: u32, greatest: u32, sum: u32)
    ensures { Puts (sheet_line junction count least greatest sum) output.old output.new }
{
    output.put_number(junction);
    put_figure(output, count);
    put_figure(output, least);
    put_figure(output, greatest);
    put_figure(output, sum);
    output.put_byte(LINE_FEED);
}

fn put_lines(output: &mut Output, junctions: usize, figures: &[u32])
    requires junctions_bound { junctions ≤ 200 }
    requires junctions_in_bounds { 4 * junctions ≤ length figures.now }
    ensures { Puts (sheet_lines figures.now 0 junctions) output.old output.new }
{
    for junction in 0..junctions {
        let at = FIGURES * junction;
        put_line(
            output,
            junction as u32,
            figures[at],
            figures[at + 1],
            figures[at + 2],
            figures[at + 3],
        );
    }
}

pub(crate) fn put_sheet(buffer: &mut [u8; OUTPUT], junctions: usize, figures: &[u32]) -> Text
    requires { LinesFit junctions figures.now }
    ensures { Printed (sheet_lines figures.now 0 junctions) false buffer.old buffer.new result }
{
    let mut output = Output::new(buffer);
    put_lines(&mut output, junctions, figures);
    Text {
        length: output.length,
        refused: false,
    }
}
