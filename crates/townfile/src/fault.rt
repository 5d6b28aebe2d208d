// Why a text is refused.
use refusals::refusal::Refusal;

// The refusal, and the line that has the fault, counted from 1. A refusal of the text as a whole has line 0.
#[derive(Clone, Copy, Debug, PartialEq, Eq)]
pub struct Fault {
    pub refusal: Refusal,
    pub line: u32,
}
