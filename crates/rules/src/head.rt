//! The words of the head of a script.
ghost use Rattle.std.specs.Prelude.{Some as Just};
ghost use Rattle.std.proofs.Common.{rules};
ghost use Rattle.rules.specs.Format.{head_text, policies, policy_text, store_text, stores};

use crate::named::{Named, Spelled};
use std::fmt;

/// The verb of a line of the head.
#[derive(Clone, Copy, Debug, PartialEq, Eq)]
pub enum HeadVerb {
    /// `engine W P F`: how many works, pools and ticket places.
    Engine,
    /// `policy N B`: a cap of B over the policy N.
    Policy,
    /// `store S`: where delayed works are kept.
    Store,
}

/// A policy, by the name that a script gives it.
#[derive(Clone, Copy, Debug, PartialEq, Eq)]
pub enum PolicyName {
    /// `free`
    Free,
    /// `percpu`
    Percpu,
    /// `ranked`
    Ranked,
}

/// A delay store, by the name that a script gives it.
#[derive(Clone, Copy, Debug, PartialEq, Eq)]
pub enum StoreName {
    /// `heap`
    Heap,
    /// `wheel`
    Wheel,
}

impl Spelled for HeadVerb {
    ghost spelling = { head_text };

    fn text(self) -> &'static str {
        match self {
            HeadVerb::Engine => "engine",
            HeadVerb::Policy => "policy",
            HeadVerb::Store => "store",
        }
    }
}

impl fmt::Display for HeadVerb {
    ghost output = { λ verb. Just (head_text verb) };

    fn fmt<W: fmt::Write>(&self, f: &mut fmt::Formatter<W>) -> fmt::Result {
        f.write_str(self.text())
    }
}

impl Spelled for PolicyName {
    ghost spelling = { policy_text };

    fn text(self) -> &'static str {
        match self {
            PolicyName::Free => "free",
            PolicyName::Percpu => "percpu",
            PolicyName::Ranked => "ranked",
        }
    }
}

impl fmt::Display for PolicyName {
    ghost output = { λ name. Just (policy_text name) };

    fn fmt<W: fmt::Write>(&self, f: &mut fmt::Formatter<W>) -> fmt::Result {
        f.write_str(self.text())
    }
}

impl Named for PolicyName {
    ghost values = { policies };

    ghost read_back = { Prim.search rules };

    fn all() -> &'static [PolicyName] {
        &[PolicyName::Free, PolicyName::Percpu, PolicyName::Ranked]
    }
}

impl Spelled for StoreName {
    ghost spelling = { store_text };

    fn text(self) -> &'static str {
        match self {
            StoreName::Heap => "heap",
            StoreName::Wheel => "wheel",
        }
    }
}

impl fmt::Display for StoreName {
    ghost output = { λ name. Just (store_text name) };

    fn fmt<W: fmt::Write>(&self, f: &mut fmt::Formatter<W>) -> fmt::Result {
        f.write_str(self.text())
    }
}

impl Named for StoreName {
    ghost values = { stores };

    ghost read_back = { Prim.search rules };

    fn all() -> &'static [StoreName] {
        &[StoreName::Heap, StoreName::Wheel]
    }
}
