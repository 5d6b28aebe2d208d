// What is printed into a lent buffer, one thing behind the other. A byte or a text for which the buffer has no room is left out.
ghost use Rattle.std.specs.Prelude.{◌≡◌, [], ◌∷◌, length};
ghost use Rattle.refusals.specs.Refusals.{number_of};
ghost use Rattle.formatting.specs.Digits.{digits_of};
ghost use Rattle.formatting.specs.Output.{Puts};
ghost use Rattle.formatting.specs.Texts.{number_unless, refusal_text};

use itoa::Buffer;
use refusals::refusal::Refusal;
use townfile::mark::LINE_FEED;

#[derive(Drop)]
pub struct Output<'a> {
    pub buffer: &'a mut [u8],
    // How much of it is written.
    pub length: usize,
}

// Byte by byte, between two parts that are lent apart: the compiler makes a memcpy of that, while for std's copy an archive for C needs memmove.
fn copy(text: &[u8], part: &mut [u8])
    requires { length part.old ≡ length text.now }
    ensures { part.new ≡ text.now }
{
    for (at, byte) in text.iter().enumerate() {
        part[at] = *byte;
    }
}

impl<'a> Output<'a> {
    pub fn new(buffer: &'a mut [u8]) -> Output<'a>
        ensures length { result.length ≡ 0 }
        ensures buffer { result.buffer.now ≡ buffer.old }
        ensures lent { result.buffer.ghost_name ≡ buffer.entry.ghost_name }
    {
        Output { buffer, length: 0 }
    }

    pub fn put_byte(&mut self, byte: u8)
        ensures { Puts (byte ∷ []) self.old self.new }
    {
        if self.length < self.buffer.len() {
            self.buffer[self.length] = byte;
            self.length += 1;
        }
    }

    pub fn put_text(&mut self, text: &[u8])
        ensures { Puts text.now self.old self.new }
    {
        let start = self.length;
        if start <= self.buffer.len() && text.len() <= self.buffer.len() - start {
            let end = start + text.len();
            copy(text, &mut self.buffer[start..end]);
            self.length = end;
        }
    }

    pub fn put_number(&mut self, number: u32)
        ensures { Puts (digits_of number) self.old self.new }
    {
        let mut digits = Buffer::new();
        self.put_text(digits.format(number).as_bytes());
    }

    // A number, or `-` where it is the mark for none.
    pub fn put_number_unless(&mut self, none: u32, number: u32)
        ensures { Puts (number_unless none number) self.old self.new }
    {
        if number == none {
            self.put_byte(b'-');
        } else {
            self.put_number(number);
        }
    }

    // No Display: std says the bytes of one in words of its own, of which the equation of the line would have to be proved again.
    pub fn put_refusal(&mut self, refusal: Refusal, line: u32)
        ensures { Puts (refusal_text (number_of refusal) line) self.old self.new }
    {
        self.put_text(b"refused ");
        self.put_number(refusal.number());
        self.put_text(b" line ");
        self.put_number(line);
        self.put_byte(LINE_FEED);
    }
}
