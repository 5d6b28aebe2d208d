// A part of a text: where it starts, and how many bytes it has.
#[derive(Clone, Copy)]
pub struct Part {
    pub start: usize,
    pub length: usize,
}
