// Document 01's replays on both sides of each edge, by their numbers.
use crate::moves::Call::{Read, ReadUnlock, Write, WriteUnlock};
use crate::moves::Move::{self, Begin, Steps};
use crate::moves::told;
use crate::sheet::Sheet;

// Thread 0 holds write, and thread 1 has begun to read.
const READER_COMES: [Move; 3] = [Begin(Write, 0), Steps(0, 1), Begin(Read, 1)];

// Thread 0 holds write, and thread 1 sleeps.
const READER_WAITS: [Move; 4] = [Begin(Write, 0), Steps(0, 1), Begin(Read, 1), Steps(1, 11)];

const WRITER_WAITS: [Move; 4] = [Begin(Write, 0), Steps(0, 1), Begin(Write, 1), Steps(1, 11)];

// Thread 0 reads, and thread 1 has registered to write.
const READ_HELD: [Move; 4] = [Begin(Read, 0), Steps(0, 2), Begin(Write, 1), Steps(1, 10)];

// After a writer waits: thread 2 waits too, and thread 0's write_unlock splits the writer off.
const READER_LEFT: [Move; 4] = [
    Begin(Read, 2),
    Steps(2, 11),
    Begin(WriteUnlock, 0),
    Steps(0, 20),
];

const WRITER_LEFT: [Move; 4] = [
    Begin(Write, 2),
    Steps(2, 11),
    Begin(WriteUnlock, 0),
    Steps(0, 20),
];

impl<R: Print + Eprint + AllocGlobal> Sheet<'_, R> {
    fn reader_waits(&mut self) {
        let after = |steps| told(2, &[&READER_COMES, &[Steps(1, steps)]]);
        self.tell(
            "write held, thread 1 reads: word after its 9th step",
            1,
            after(9).word(),
        );
        self.tell(
            "word after its 10th step, which registers",
            35,
            after(10).word(),
        );
        self.tell(
            "its 11th step, the load of completed, is refused",
            0,
            after(11).refused(),
        );
        self.tell("its 12th step is refused", 6, after(12).refused());
    }

    fn reader_woken(&mut self) {
        let after = |steps| told(
            2,
            &[&READER_WAITS, &[Begin(WriteUnlock, 0), Steps(0, steps)]],
        );
        self.tell(
            "write_unlock with a reader queued: steps",
            7,
            after(100).accepted(),
        );
        self.tell("word that it passes", 38, after(2).word());
        self.tell("word at its end", 0, after(7).word());
        self.tell("node of the thread that it wakes", 2, after(100).woken());
    }

    fn writer_woken(&mut self) {
        let whole = told(2, &[&WRITER_WAITS, &[Begin(WriteUnlock, 0), Steps(0, 100)]]);
        self.tell(
            "write_unlock with a writer queued: steps",
            8,
            whole.accepted(),
        );
    }

    // From 35, thread 2 writes.
    fn second_waits(&mut self) {
        let after = |steps| told(3, &[&READER_WAITS, &[Begin(Write, 2), Steps(2, steps)]]);
        self.tell(
            "from 35, thread 2 writes: word after 3 steps",
            55,
            after(3).word(),
        );
        let ninth = after(9);
        self.tell("word after 6 more", 51, ninth.word());
        self.tell("listing: how many", 2, ninth.waiters());
        self.tell("listing: the newest", 3, ninth.newest());
        self.tell("listing: the oldest", 2, ninth.oldest());
    }

    fn count_in_node(&mut self) {
        let queued = told(2, &[&READ_HELD]);
        self.tell("one reader, one queued writer: word", 35, queued.word());
        self.tell("node 2's next", 16, queued.next());
        let unlock = told(2, &[&READ_HELD, &[Begin(ReadUnlock, 0), Steps(0, 100)]]);
        self.tell("read_unlock: steps", 11, unlock.accepted());
    }

    // A writer is split off a queue whose other waiter reads; then a reader registers on that word.
    fn own_node(&mut self) {
        let split = told(4, &[&WRITER_WAITS, &READER_LEFT]);
        self.tell("a word with only QUEUED set", 50, split.word());
        let reads = told(
            4,
            &[
                &WRITER_WAITS,
                &READER_LEFT,
                &[Begin(Read, 3), Steps(3, 100)],
            ],
        );
        self.tell(
            "a reader that registers on it completes its own node last",
            4,
            reads.woken(),
        );
    }

    // A next that looks like a count and is none: a writer holds over a queue left by a split.
    fn stale_link(&mut self) {
        let barged = told(3, &[&WRITER_WAITS, &WRITER_LEFT, &[Steps(1, 4)]]);
        self.tell(
            "a writer holds over a queue left by a split: word",
            51,
            barged.word(),
        );
        self.tell("node 3's next", 32, barged.next());
        self.tell("readers traced", 0, barged.readers());
    }

    // Document 01's replays.
    pub(crate) fn replays(&mut self) {
        self.reader_waits();
        self.reader_woken();
        self.writer_woken();
        self.second_waits();
        self.count_in_node();
        self.own_node();
        self.stale_link();
    }
}
