// How far a thread has come in its call: one place for each access site of queue.rs (docs/PLACES.md has the lines).
// `seen` is the word last loaded, written or reported; a compare's new word is computed from it. A walk's head is the
// node of the word that it saw.
use word::{NodeNumber, Word};

// Who unlocks the queue or wakes: a waiter of its own, which goes on to wait, or a call that ends after it.
#[derive(Clone, Copy)]
pub enum Who {
    Waiter { writer: bool },
    Leaver,
}

// What a walk to the tail is for.
#[derive(Clone, Copy)]
pub enum Walk {
    Queue { who: Who },
    ReadUnlock,
    Downgrade,
}

#[derive(Clone, Copy)]
pub enum Place {
    Idle,
    // try_read, and the first attempt of read
    TryReadLoad {
        blocking: bool,
    },
    TryReadCas {
        blocking: bool,
        seen: Word,
    },
    // try_write, and the first attempt of write
    TryWriteOr {
        blocking: bool,
    },
    // lock_contended
    ContendLoad {
        writer: bool,
        reloads: u8,
    },
    ContendCas {
        writer: bool,
        reloads: u8,
        seen: Word,
    },
    RegisterCas {
        writer: bool,
        reloads: u8,
        seen: Word,
    },
    CompletedLoad {
        writer: bool,
    },
    Park {
        writer: bool,
    },
    // find_tail_and_add_backlinks
    WalkTail {
        walk: Walk,
        seen: Word,
        current: NodeNumber,
    },
    WalkNext {
        walk: Walk,
        seen: Word,
        current: NodeNumber,
    },
    WalkPrev {
        walk: Walk,
        seen: Word,
        current: NodeNumber,
        next: NodeNumber,
    },
    WalkHead {
        walk: Walk,
        seen: Word,
        tail: NodeNumber,
    },
    // unlock_queue
    QueueCas {
        who: Who,
        seen: Word,
    },
    SplitPrev {
        who: Who,
        seen: Word,
        tail: NodeNumber,
    },
    SplitStore {
        who: Who,
        seen: Word,
        tail: NodeNumber,
        prev: NodeNumber,
    },
    SplitCas {
        who: Who,
        seen: Word,
        tail: NodeNumber,
    },
    SplitRestore {
        who: Who,
        seen: Word,
        tail: NodeNumber,
        reported: Word,
    },
    TakeCas {
        who: Who,
        seen: Word,
        tail: NodeNumber,
    },
    // complete_all; the one node of a split is completed with prev none
    WakePrev {
        who: Who,
        current: NodeNumber,
    },
    WakeStore {
        who: Who,
        current: NodeNumber,
        prev: NodeNumber,
    },
    // read_unlock, read_unlock_contended
    ReadUnlockLoad,
    ReadUnlockCas {
        seen: Word,
    },
    Subtract {
        seen: Word,
        tail: NodeNumber,
    },
    // write_unlock, unlock_contended
    WriteUnlockCas,
    ReleaseCas {
        seen: Word,
    },
    // downgrade, downgrade_slow
    DowngradeCas,
    DowngradeSlowCas {
        seen: Word,
    },
}
