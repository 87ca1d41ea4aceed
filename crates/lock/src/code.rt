// The event code byte: 0 to 6 begin a call, 16 and 17 step, every other value is unknown.
ghost use Rattle.std.specs.Prelude.{◌≡◌};
ghost use Rattle.lock.specs.Code.{call_of, code_of};

#[derive(Clone, Copy)]
pub enum Call {
    Read,
    Write,
    TryRead,
    TryWrite,
    ReadUnlock,
    WriteUnlock,
    Downgrade,
}

#[derive(Clone, Copy)]
pub enum Code {
    Begin(Call),
    Step,
    Fail,
}

// Of 0 to 6.
fn call_of(code: u8) -> Call
    ensures { result ≡ call_of code }
{
    match code {
        0 => Call::Read,
        1 => Call::Write,
        2 => Call::TryRead,
        3 => Call::TryWrite,
        4 => Call::ReadUnlock,
        5 => Call::WriteUnlock,
        _ => Call::Downgrade,
    }
}

// No TryFrom: its clause would say by a relation what this one says by the whole answer.
pub fn code_of(code: u8) -> Option<Code>
    ensures { result ≡ code_of code }
{
    match code {
        0..=6 => Some(Code::Begin(call_of(code))),
        16 => Some(Code::Step),
        17 => Some(Code::Fail),
        _ => None,
    }
}
