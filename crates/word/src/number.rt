// Thread and node numbers. A node is its thread plus one, and 0 is no node.
ghost use Rattle.std.specs.Prelude.{◌≡◌};
ghost use Rattle.word.specs.Number.{node_of, owner_of, is_none, slot_of};

#[derive(Clone, Copy, PartialEq, Eq)]
pub struct ThreadNumber(pub u8);

#[derive(Clone, Copy, PartialEq, Eq)]
pub struct NodeNumber(pub u64);

impl ThreadNumber {
    pub fn node(self) -> NodeNumber
        ensures { result ≡ node_of self }
    {
        NodeNumber(self.0 as u64 + 1)
    }
}

impl NodeNumber {
    pub const NONE: NodeNumber = NodeNumber(0);

    pub fn is_none(self) -> bool
        ensures { result ≡ is_none self }
    {
        self == NodeNumber::NONE
    }

    // Whose a node is; no thread number fits a node number past 256.
    pub fn owner(self) -> Option<ThreadNumber>
        ensures { result ≡ owner_of self }
    {
        let index = self.0.checked_sub(1)?;
        Some(ThreadNumber(u8::try_from(index).ok()?))
    }

    // Where a node lies among the nodes of a machine of so many threads.
    pub fn slot(self, count: u8) -> Option<usize>
        ensures { result ≡ slot_of self count }
    {
        if (1..=count as u64).contains(&self.0) {
            Some((self.0 - 1) as usize)
        } else {
            None
        }
    }
}
