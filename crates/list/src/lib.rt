//! Doubly linked lists that are threaded through the records of a slice. A list owns no record: it
//! has the numbers of its first and its last one, and each record has those of its neighbours.
//! Many lists may go through one slice; a record stands in at most one of them.
#![tactic(auto)]

pub mod linked_list;
pub mod node;
