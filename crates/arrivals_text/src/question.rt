// The first line of the input.
ghost use Rattle.std.specs.Prelude.{◌≡◌};
ghost use Rattle.arrivals_text.specs.Code.Found.{question_in_lem};

use question_line::line::{QUESTION, numbers_line};

// The two numbers of the question and where the town file begins.
#[derive(Clone, Copy)]
pub(crate) struct Question {
    pub source: u32,
    pub departure: u32,
    pub town: usize,
}

pub(crate) fn question_in(input: &[u8]) -> Option<Question>
    ensures { result ≡ question_in_lem input.now }
{
    let mut numbers = [0u32; 2];
    let asked = numbers_line(QUESTION, input, &mut numbers)?;
    if asked.count != 2 {
        return None;
    }
    Some(Question {
        source: numbers[0],
        departure: numbers[1],
        town: asked.next,
    })
}
