// Schedule files on both sides of each limit: the number of the refusal, 0 where the file is accepted.
ghost use Rattle.std.specs.Prelude.{◌≤◌, ◌<◌, ◌^◌};

use crate::sheet::Sheet;
use schedule::file::check;

// What a file is, what is expected of it, and its bytes.
const FILES: [(&str, u64, &[u8]); 17] = [
    ("a file of no bytes", 10, &[]),
    ("5 bytes", 10, &[1, 0, 0, 0, 1]),
    ("6 bytes", 0, &[1, 0, 0, 0, 1, 1]),
    ("version 0", 11, &[0, 0, 0, 0, 1, 1]),
    ("version 2", 11, &[2, 0, 0, 0, 1, 1]),
    ("a length one too small", 12, &[1, 0, 0, 0, 2, 1, 3, 0]),
    ("one too large", 12, &[1, 0, 0, 0, 4, 1, 3, 0]),
    ("the right one", 0, &[1, 0, 0, 0, 3, 1, 3, 0]),
    ("right, and even", 12, &[1, 0, 0, 0, 2, 1, 3]),
    (
        "right in its last byte alone",
        12,
        &[1, 0, 0, 1, 3, 1, 3, 0],
    ),
    ("0 threads", 13, &[1, 0, 0, 0, 1, 0]),
    ("1 thread", 0, &[1, 0, 0, 0, 1, 1]),
    ("8 threads", 0, &[1, 0, 0, 0, 1, 8]),
    ("9 threads", 13, &[1, 0, 0, 0, 1, 9]),
    // Two refusals hold, and the first is given.
    ("5 bytes of version 2", 10, &[2, 0, 0, 0, 1]),
    ("version 2 and a wrong length", 11, &[2, 0, 0, 0, 9, 1]),
    ("a wrong length and 9 threads", 12, &[1, 0, 0, 0, 9, 9]),
];

fn number(s: &[u8]) -> u64 {
    match check(s) {
        Ok(_) => 0,
        Err(refusal) => u64::from(refusal.number()),
    }
}

// The same of a file of N bytes, which are 0 after its head.
fn number_of<const N: usize>(head: [u8; 6]) -> u64
    requires low { 6 ≤ N }
    requires high { N < 2 ^ 32 }
{
    let mut file = [0u8; N];
    file[..6].copy_from_slice(&head);
    number(&file)
}

impl<R: Print + Eprint + AllocGlobal> Sheet<'_, R> {
    pub(crate) fn files(&mut self) {
        for (what, expected, file) in FILES {
            self.tell(what, expected, number(file));
        }
        // 60,001 is 0xEA61: the bytes after the length of 30,000 events.
        let most = number_of::<60006>([1, 0, 0, 0xEA, 0x61, 8]);
        self.tell("30,000 events", 0, most);
        let too_many = number_of::<60008>([1, 0, 0, 0xEA, 0x63, 8]);
        self.tell("30,001 events", 14, too_many);
        let of_nine = number_of::<60008>([1, 0, 0, 0xEA, 0x63, 9]);
        self.tell("30,001 events of 9 threads", 13, of_nine);
    }
}
