//! Records that can stand in a list.
ghost use Rattle.std.specs.Prelude.{◌≡◌, ℕ, ◌<◌, map, length, None as Nothing, Option as Maybe, slice_index_or, slice_set};
ghost use Rattle.list.specs.Lists.{Follows};
ghost use Rattle.list.specs.Writes.{Unlinked};

/// A record with two neighbours, which are records of the same slice.
pub trait Node {
    /// The number of the record before it in its list, if there is one.
    ghost before: { Self → Maybe ℕ };

    /// The number of the record after it in its list, if there is one.
    ghost after: { Self → Maybe ℕ };

    /// The record with its two links taken off.
    ghost bare: { Self → Self };

    /// The number of the record before it.
    fn prev(&self) -> Option<u16>
        ensures { result ≡ before self.now };

    /// The number of the record after it.
    fn next(&self) -> Option<u16>
        ensures { result ≡ after self.now };

    /// Sets the number of the record before it, and nothing else.
    fn set_prev(&mut self, to: Option<u16>)
        ensures link { before self.new ≡ to }
        ensures other { after self.new ≡ after self.old }
        ensures rest { bare self.new ≡ bare self.old };

    /// Sets the number of the record after it, and nothing else.
    fn set_next(&mut self, to: Option<u16>)
        ensures link { after self.new ≡ to }
        ensures other { before self.new ≡ before self.old }
        ensures rest { bare self.new ≡ bare self.old };

    /// A bare record has no neighbours.
    ghost alone: { (x : Self) → (before (bare x) ≡ Nothing) × (after (bare x) ≡ Nothing) };

    /// A bare record has no links left to take off.
    ghost still: { (x : Self) → bare (bare x) ≡ bare x };

    /// The two links and the bare record are the whole record: nothing else hides from `bare`.
    ghost whole: { (x y : Self) → before x ≡ before y → after x ≡ after y → bare x ≡ bare y → x ≡ y };
}

/// The numbers of the two records beside a record.
#[derive(Clone, Copy)]
pub(crate) struct Neighbours {
    pub(crate) prev: Option<u16>,
    pub(crate) next: Option<u16>,
}

/// The neighbours of the record `i`, in whichever list it stands.
pub(crate) fn neighbours_of<N: Node>(nodes: &[N], i: u16) -> Neighbours
    requires { i < length nodes.now }
    ensures prev { result.prev ≡ slice_index_or (map N.before nodes.now) i Nothing }
    ensures next { result.next ≡ slice_index_or (map N.after nodes.now) i Nothing }
{
    let node = &nodes[usize::from(i)];
    Neighbours {
        prev: node.prev(),
        next: node.next(),
    }
}

/// The number of the record that comes after the record `i`, in whichever list it stands: a step of
/// a walk along a list.
pub fn next_of<N: Node>(nodes: &[N], i: u16) -> Option<u16>
    requires { i < length nodes.now }
    ensures link { result ≡ slice_index_or (map N.after nodes.now) i Nothing }
    ensures walk { Follows N.after N.before nodes.now i result }
{
    neighbours_of(nodes, i).next
}

/// Takes the links of the record `i` off.
#[tactic(auto, using(crate::proofs::Writing::link_set))]
pub(crate) fn unlink<N: Node>(nodes: &mut [N], i: u16)
    requires { i < length nodes.old }
    ensures links { Unlinked N.after N.before N.bare nodes.old nodes.new i }
    ensures bare { (d : N) → nodes.new ≡ slice_set nodes.old i (N.bare (slice_index_or nodes.old i d)) }
{
    let node = &mut nodes[usize::from(i)];
    node.set_prev(None);
    node.set_next(None);
}
