// The port's side of the comparison with queue.rs, and of the fixed list of queue.rs's answers (docs/BESIDE.md).
//
// Commands of three bytes come on standard input: what to do, a code or a thread count, a thread. A line goes out for
// each event that is shown: the reply, the word, and each thread with its next access and its node.
#![tactic(auto)]

mod carried;
mod line;
mod page;

ghost use Rattle.std.specs.Prelude.{◌≤◌, length};

use lock::event::event;
use page::Page;
use state::{Machine, Outcome};
use std::io::Read;
use word::ThreadNumber;

// The bytes of a command.
const WIDTH: usize = 3;

// A block of commands is read whole, so that it can be answered before more is sent.
const BLOCK: usize = 4095;

// What a command's first byte asks.
#[derive(Clone, Copy, PartialEq, Eq)]
enum Command {
    // A fresh machine of so many threads.
    Fresh,
    // An event whose line is printed.
    Show,
    // An event with no line.
    Quiet,
    // An event whose line is printed with what the places carry; the event is not kept.
    Try,
}

// A byte that is no command asks nothing.
fn command_of(byte: u8) -> Option<Command> {
    match byte {
        0 => Some(Command::Fresh),
        1 => Some(Command::Show),
        2 => Some(Command::Quiet),
        3 => Some(Command::Try),
        _ => None,
    }
}

// The machine that the commands lead to, and the lines that are not yet written.
#[derive(Drop)]
struct Port<'a, R> {
    rt: &'a R,
    machine: Machine,
    page: Page,
}

impl<R: Print> Port<'_, R> {
    fn event(&mut self, command: Command, code: u8, me: ThreadNumber) {
        let Outcome { machine, reply } = event(self.machine, code, me);
        if command != Command::Quiet {
            self.page.line(reply, &machine, command == Command::Try);
            if self.page.is_full() {
                self.page.write_out(self.rt);
            }
        }
        if command != Command::Try {
            self.machine = machine;
        }
    }

    fn obey(&mut self, [command, code, thread]: [u8; WIDTH]) {
        match command_of(command) {
            Some(Command::Fresh) => self.machine = Machine::fresh(code).machine,
            Some(command) => self.event(command, code, ThreadNumber(thread)),
            None => (),
        }
    }

    // All that is asked in a block is answered.
    fn answer(&mut self, block: &[u8]) {
        let (commands, _) = block.as_chunks::<WIDTH>();
        for command in commands {
            self.obey(*command);
        }
        self.page.write_out(self.rt);
    }
}

// How many bytes were put at the start: all, or as many as there were before the end or a read that failed. (`io::copy`
// would go on after a read that a signal broke off.)
fn read_full(from: &mut impl Read, bytes: &mut [u8]) -> usize
    ensures { result ≤ length bytes.new }
{
    let mut done = 0;
    while done < bytes.len() {
        match from.read(&mut bytes[done..]) {
            Ok(0) | Err(_) => break,
            Ok(more) => done += more,
        }
    }
    done
}

fn main(rt: HostRuntime) {
    let mut port = Port {
        rt: &rt,
        machine: Machine::fresh(1).machine,
        page: Page::new(),
    };
    // more blocks than can come: a loop is shown to end
    for _ in 0..u64::MAX {
        let mut block = [0; BLOCK];
        let got = read_full(&mut rt.reader(), &mut block);
        port.answer(&block[..got]);
        if got < BLOCK {
            return;
        }
    }
}
