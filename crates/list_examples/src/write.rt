//! Register writes as records of a list.
ghost use Rattle.std.specs.Prelude.{◌≡◌, None as Nothing};
ghost use Rattle.list_examples.specs.Kinds.{bare_write, write_after, write_before};
ghost use Rattle.std.proofs.Common.{rules};

use list::node::Node;

/// A register write that waits for its turn.
#[derive(Clone, Copy, Debug, PartialEq, Eq)]
pub struct Write {
    pub register: u16,
    pub value: u32,
    prev: Option<u16>,
    next: Option<u16>,
}

impl Write {
    /// A write that stands in no list.
    pub fn new(register: u16, value: u32) -> Write
        ensures { result ≡ record { register = register; value = value; prev = Nothing; next = Nothing } }
    {
        Write {
            register,
            value,
            prev: None,
            next: None,
        }
    }
}

impl Node for Write {
    ghost before = { write_before };

    ghost after = { write_after };

    ghost bare = { bare_write };

    ghost alone = { Prim.search rules };

    ghost still = { Prim.search rules };

    ghost whole = { Prim.search rules };

    fn prev(&self) -> Option<u16> {
        self.prev
    }

    fn next(&self) -> Option<u16> {
        self.next
    }

    fn set_prev(&mut self, to: Option<u16>) {
        self.prev = to;
    }

    fn set_next(&mut self, to: Option<u16>) {
        self.next = to;
    }
}
