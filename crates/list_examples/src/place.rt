//! Ticket places as records of a list.
ghost use Rattle.std.specs.Prelude.{◌≡◌, false, [], ◌∷◌, None as Nothing};
ghost use Rattle.list_examples.specs.Kinds.{bare_place, place_after, place_before};
ghost use Rattle.std.proofs.Common.{rules};

use list::node::Node;

/// A place that a ticket can be out at. Its links are a pair: the place before it, and the one
/// after it.
#[derive(Clone, Copy, Debug, PartialEq, Eq)]
pub struct Place {
    links: (Option<u16>, Option<u16>),
    /// Whether a ticket is out at the place.
    pub out: bool,
    /// Who holds the ticket, while one is out.
    pub holder: [u8; 4],
}

impl Place {
    /// A place with no ticket out, which stands in no list.
    pub fn new() -> Place
        ensures { result ≡ record { links = (Nothing, Nothing); out = false; holder = 0 ∷ 0 ∷ 0 ∷ 0 ∷ [] } }
    {
        Place {
            links: (None, None),
            out: false,
            holder: [0; 4],
        }
    }
}

impl Node for Place {
    ghost before = { place_before };

    ghost after = { place_after };

    ghost bare = { bare_place };

    ghost alone = { Prim.search rules };

    ghost still = { Prim.search rules };

    ghost whole = { Prim.search rules };

    fn prev(&self) -> Option<u16> {
        self.links.0
    }

    fn next(&self) -> Option<u16> {
        self.links.1
    }

    fn set_prev(&mut self, to: Option<u16>) {
        self.links.0 = to;
    }

    fn set_next(&mut self, to: Option<u16>) {
        self.links.1 = to;
    }
}
