//! The lists and their operations.
ghost use Rattle.std.specs.Prelude.{◌≡◌, ℕ, ◌<◌, List, [], length, Option as Maybe, IfSome};
ghost use Rattle.list.specs.Changes.{Popped, Pushed, Removed};
ghost use Rattle.list.specs.Lists.{empty, members, Holds, Sound};
ghost use Rattle.list.specs.Numbers.{In, NotIn};
ghost use Rattle.list.specs.Writes.{Joined};

use crate::node::{Node, neighbours_of, unlink};

/// A list through the records of a slice: the numbers of its first and its last record, and how
/// many records stand in it.
#[derive(Clone, Copy, Debug, PartialEq, Eq)]
pub struct LinkedList {
    pub front: Option<u16>,
    pub back: Option<u16>,
    pub count: usize,
}

impl LinkedList {
    /// A list that holds no record, whichever slice it is to go through.
    pub fn new() -> LinkedList
        ensures value { result ≡ empty }
        ensures holds { (nexts prevs : List (Maybe ℕ)) → Holds nexts prevs result [] }
    {
        LinkedList {
            front: None,
            back: None,
            count: 0,
        }
    }

    /// Puts the record `i`, which does not stand in the list, at its end.
    pub fn push_back<N: Node>(&mut self, nodes: &mut [N], i: u16)
        requires inside { i < length nodes.old }
        requires sound { Sound N.after N.before nodes.old self.old }
        requires new { NotIn i (members N.after nodes.old self.old) }
        ensures { Pushed N.after N.before N.bare nodes.old nodes.new self.old self.new i }
    {
        self.join(nodes, self.back, Some(i));
        self.join(nodes, Some(i), None);
        self.count += 1;
    }

    /// Takes the first record of the list, if there is one, and tells its number.
    pub fn pop_front<N: Node>(&mut self, nodes: &mut [N]) -> Option<u16>
        requires { Sound N.after N.before nodes.old self.old }
        ensures { Popped N.after N.before N.bare nodes.old nodes.new self.old self.new result }
    {
        let front = self.front?;
        self.remove(nodes, front);
        Some(front)
    }

    /// Lets the record `i` of the list go, from wherever it stands in it.
    pub fn remove<N: Node>(&mut self, nodes: &mut [N], i: u16)
        requires sound { Sound N.after N.before nodes.old self.old }
        requires stands { In i (members N.after nodes.old self.old) }
        ensures { Removed N.after N.before N.bare nodes.old nodes.new self.old self.new i }
    {
        let beside = neighbours_of(nodes, i);
        self.join(nodes, beside.prev, beside.next);
        unlink(nodes, i);
        self.count -= 1;
    }

    /// Lets `b` come after `a`, and `a` before `b`. Each is the number of a record or, where there
    /// is none, the list itself: its front comes after it, and its back before it.
    #[tactic(auto, using(crate::proofs::Writing::link_set))]
    fn join<N: Node>(&mut self, nodes: &mut [N], a: Option<u16>, b: Option<u16>)
        requires a { IfSome a (λ i. i < length nodes.old) }
        requires b { IfSome b (λ i. i < length nodes.old) }
        ensures { Joined N.after N.before N.bare nodes.old nodes.new self.old self.new a b }
    {
        match a {
            Some(i) => nodes[usize::from(i)].set_next(b),
            None => self.front = b,
        }
        match b {
            Some(i) => nodes[usize::from(i)].set_prev(a),
            None => self.back = a,
        }
    }
}
