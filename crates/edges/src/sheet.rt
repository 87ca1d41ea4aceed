// A line for each edge: what was expected and found; and how many agree.
use console::output::write_line;
use print::Line;

#[derive(Drop)]
pub(crate) struct Sheet<'a, R> {
    rt: &'a R,
    right: u64,
    wrong: u64,
}

impl<'a, R: Print + Eprint + AllocGlobal> Sheet<'a, R> {
    pub(crate) fn new(rt: &'a R) -> Self {
        Sheet {
            rt,
            right: 0,
            wrong: 0,
        }
    }

    pub(crate) fn tell(&mut self, what: &str, expected: u64, found: u64) {
        let named = Line::blank().text(what.as_bytes()).text(b": expected ");
        let line = named.decimal(expected).text(b", found ").decimal(found);
        write_line(self.rt, line);
        if expected == found {
            self.right = self.right.saturating_add(1);
        } else {
            self.wrong = self.wrong.saturating_add(1);
        }
    }

    pub(crate) fn total(&self) {
        let right = Line::blank().decimal(self.right).text(b" right, ");
        write_line(self.rt, right.decimal(self.wrong).text(b" wrong"));
    }
}
