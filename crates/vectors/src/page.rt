// The page that lines are put on. What does not fit is left out.
//
// Its bytes lie in it, so that no command can fail for want of memory. A line is no Display: with `write!` of each
// number, into an ArrayString, a stream of commands took a third longer.
ghost use Rattle.std.specs.Prelude.{◌≤◌};
ghost use Rattle.vectors.specs.declared.page.TheConstants.{SPACE};

use std::fmt::{self, Write};

const SPACE: usize = 65536;

// A page is written out when it is fuller than this; no command's line is longer than the rest.
const FULL: usize = 60000;

#[derive(Drop)]
pub(crate) struct Page {
    bytes: [u8; SPACE],
    length: usize,
    ghost within: { length ≤ SPACE },
}

impl Write for Page {
    fn write_str(&mut self, s: &str) -> fmt::Result {
        for b in s.bytes() {
            self.byte(b);
        }
        Ok(())
    }
}

impl Page {
    pub(crate) fn new() -> Page {
        Page {
            bytes: [0; SPACE],
            length: 0,
        }
    }

    pub(crate) fn is_full(&self) -> bool {
        self.length > FULL
    }

    // The page is empty again. A write that fails is passed over.
    pub(crate) fn write_out(&mut self, rt: &impl Print) {
        let _ = rt.write_all(&self.bytes[..self.length]);
        self.length = 0;
    }

    pub(crate) fn byte(&mut self, b: u8) {
        if self.length < SPACE {
            self.bytes[self.length] = b;
            self.length += 1;
        }
    }

    // A space, and the number in decimal.
    pub(crate) fn number(&mut self, n: u64) {
        self.byte(b' ');
        if n < 10 {
            self.byte(b'0' + n as u8);
        } else {
            let _ = write!(self, "{n}");
        }
    }

    pub(crate) fn numbers(&mut self, numbers: &[u64]) {
        for n in numbers {
            self.number(*n);
        }
    }
}
