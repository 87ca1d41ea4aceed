// The line of a state: the reply and the word, then for each thread its token, holding and next access, and its node.
use crate::carried;
use crate::page::Page;
use state::{Accepted, Access, Kind, Location, Machine, Node, Place, Reply};
use std::fmt::Write;
use word::ThreadNumber;

// A location's number, and that of its node or thread.
fn located(location: Location) -> [u64; 2] {
    match location {
        Location::Nowhere => [0, 0],
        Location::Word => [1, 0],
        Location::Next(n) => [2, n.0],
        Location::Prev(n) => [3, n.0],
        Location::Tail(n) => [4, n.0],
        Location::Completed(n) => [5, n.0],
        Location::Token(t) => [6, u64::from(t.0)],
    }
}

impl Page {
    fn reply(&mut self, reply: Reply) {
        match reply {
            Ok(Accepted { answer, woken }) => {
                let word = answer.text();
                for b in word.bytes.iter().take(word.length) {
                    self.byte(*b);
                }
                match woken {
                    None => {
                        let _ = self.write_str(" -");
                    }
                    Some(t) => self.number(u64::from(t.0)),
                }
            }
            Err(refusal) => {
                let _ = self.write_str("refused");
                self.number(u64::from(refusal.number()));
            }
        }
    }

    fn access(&mut self, place: Place, access: Access) {
        let [location, of] = located(access.location);
        // what a weak compare expects, and what a store stores
        let operand = match access.kind {
            Kind::WeakCompare => carried::seen(place).0,
            Kind::Store => carried::node(place).0,
            _ => 0,
        };
        self.numbers(&[
            carried::number(place),
            access.kind as u64,
            location,
            of,
            operand,
        ]);
    }

    fn node(&mut self, node: &Node) {
        self.numbers(&[node.next.0, node.prev.0, node.tail.0]);
        self.numbers(&[u64::from(node.writer), u64::from(node.completed)]);
    }

    // What a place carries, which queue.rs keeps in its locals.
    fn carried(&mut self, place: Place) {
        let _ = self.write_str(" :");
        self.numbers(&[
            carried::role(place),
            carried::reloads(place),
            carried::seen(place).0,
        ]);
        self.numbers(&[carried::node(place).0, carried::beside(place)]);
    }

    // With `inner`, each thread's part has also what its place carries. Not inlined: the commands are faster without.
    #[inline(never)]
    pub(crate) fn line(&mut self, reply: Reply, m: &Machine, inner: bool) {
        self.reply(reply);
        self.number(m.word.0);
        let threads = m.threads.iter().zip(&m.nodes);
        for (k, (thread, node)) in (0..m.count).zip(threads) {
            let place = thread.place;
            let _ = self.write_str(" |");
            self.numbers(&[u64::from(thread.token), thread.holding as u64]);
            self.access(place, Access::of(ThreadNumber(k), place));
            if carried::is_filled(place) {
                self.node(node);
            }
            if inner {
                self.carried(place);
            }
        }
        self.byte(b'\n');
    }
}
