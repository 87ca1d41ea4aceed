// What a thread holds: read through two numbers, and changed by grant, release and downgrade alone.
ghost use Rattle.std.specs.Prelude.{◌≡◌};
ghost use Rattle.state.specs.Holding.{reads_of, writes_of, granted_read, granted_write};
ghost use Rattle.state.specs.Holding.{released_read, released_write, downgraded_to};

#[derive(Clone, Copy, PartialEq, Eq)]
pub enum Holding {
    Nothing,
    Read,
    Write,
}

impl Holding {
    pub fn reads(self) -> u64
        ensures { result ≡ reads_of self }
    {
        match self {
            Holding::Read => 1,
            Holding::Nothing | Holding::Write => 0,
        }
    }

    pub fn writes(self) -> u64
        ensures { result ≡ writes_of self }
    {
        match self {
            Holding::Write => 1,
            Holding::Nothing | Holding::Read => 0,
        }
    }

    // A grant, a release and a downgrade set the record whatever stood there: only a begin judges it. One function for
    // each, since the rules name each by its definition.
    pub fn granted_read(self) -> Holding
        ensures { result ≡ granted_read self }
    {
        Holding::Read
    }

    pub fn granted_write(self) -> Holding
        ensures { result ≡ granted_write self }
    {
        Holding::Write
    }

    pub fn released_read(self) -> Holding
        ensures { result ≡ released_read self }
    {
        Holding::Nothing
    }

    pub fn released_write(self) -> Holding
        ensures { result ≡ released_write self }
    {
        Holding::Nothing
    }

    pub fn downgraded(self) -> Holding
        ensures { result ≡ downgraded_to self }
    {
        Holding::Read
    }
}
