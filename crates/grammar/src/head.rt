//! What the head of a script says.
use rules::head::{PolicyName, StoreName};
use rules::sizes::Sizes;

/// The head of a script: what its first three lines that are not skipped ask for.
#[derive(Clone, Copy, Debug, PartialEq, Eq)]
pub struct Head {
    pub sizes: Sizes,
    pub policy: PolicyName,
    /// The cap over the policy: 1 to 255.
    pub cap: u8,
    pub store: StoreName,
}
