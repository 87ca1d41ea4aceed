// A line of text by value: bytes are put after those that are there; what does not fit is left out.
ghost use Rattle.std.specs.Prelude.{◌≡◌};
ghost use Rattle.print.specs.Text.{decimal_by, decimal};
ghost use Rattle.print.specs.Line.{blank_of, put_of, put_all};

pub const WIDTH: usize = 256;
// The most digits that a 64-bit number has.
pub const DIGITS: u8 = 20;

// No ArrayString: it refuses a text that does not fit, and leaves open its spare bytes, which `byte_determined` fixes.
#[derive(Clone, Copy)]
pub struct Line {
    pub bytes: [u8; WIDTH],
    pub length: usize,
}

impl Line {
    pub fn blank() -> Line
        ensures { result ≡ blank_of }
    {
        Line {
            bytes: [0; WIDTH],
            length: 0,
        }
    }

    // A new array: with a store in place at `mut self` a trace took a third longer.
    pub fn byte(self, b: u8) -> Line
        ensures { result ≡ put_of self b }
    {
        if self.length < WIDTH {
            let mut bytes = self.bytes;
            bytes[self.length] = b;
            Line {
                bytes,
                length: self.length + 1,
            }
        } else {
            self
        }
    }

    // No `write!`: by its contract it may fail, and then says nothing of the text.
    #[tactic(auto, unfolding(crate::specs::Line::put_all))]
    pub fn text(self, s: &[u8]) -> Line
        ensures { result ≡ put_all self s.now }
    {
        s.iter().fold(self, |line, b| line.byte(*b))
    }

    pub fn decimal(self, n: u64) -> Line
        ensures { result ≡ put_all self (decimal n) }
    {
        numeral(self, n, DIGITS)
    }
}

#[tactic(auto, using(crate::specs::Laws::digits))]
fn numeral(line: Line, n: u64, places: u8) -> Line
    ensures { result ≡ put_all line (decimal_by places n) }
{
    if places == 0 {
        line
    } else if n < 10 {
        line.byte(b'0' + n as u8)
    } else {
        numeral(line, n / 10, places - 1).byte(b'0' + (n % 10) as u8)
    }
}
