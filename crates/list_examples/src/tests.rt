//! The operations on lists of both kinds of records: each test is one text that runs on either.

use crate::moves::move_front;
use crate::place::Place;
use crate::profile::Profile;
use crate::write::Write;
use list::linked_list::LinkedList;
use list::node::{Node, next_of};
use std::mem::size_of;
use std::process::Abort;

/// A record goes from the middle of a list, then one from its end and one from its front.
fn removals<N: Node>(rt: &impl Abort, nodes: &mut [N; 6]) {
    let mut list = LinkedList::new();
    list.push_back(nodes, 2);
    list.push_back(nodes, 0);
    list.push_back(nodes, 5);
    list.push_back(nodes, 3);
    list.remove(nodes, 0);
    assert_eq!(rt; (list.front, list.back), (Some(2), Some(3)));
    assert_eq!(rt; (next_of(nodes, 2), next_of(nodes, 5)), (Some(5), Some(3)));
    assert_eq!(rt; (nodes[0].prev(), nodes[0].next()), (None, None));
    list.remove(nodes, 3);
    assert_eq!(rt; list.back, Some(5));
    list.remove(nodes, 2);
    assert_eq!(rt; list.front, Some(5));
    assert_eq!(rt; list.count, 1);
}

/// The only record of a list goes, and comes again.
fn last_one<N: Node>(rt: &impl Abort, nodes: &mut [N; 6]) {
    let mut list = LinkedList::new();
    assert_eq!(rt; list.pop_front(nodes), None);
    list.push_back(nodes, 4);
    list.remove(nodes, 4);
    assert_eq!(rt; (list.front, list.back), (None, None));
    list.push_back(nodes, 4);
    assert_eq!(rt; list.pop_front(nodes), Some(4));
    assert_eq!(rt; list.count, 0);
}

/// Records go from one list through the slice to another, until none is left.
fn moves<N: Node>(rt: &impl Abort, nodes: &mut [N; 6]) {
    let mut held = LinkedList::new();
    held.push_back(nodes, 4);
    held.push_back(nodes, 1);
    let mut queued = LinkedList::new();
    assert_eq!(rt; move_front(nodes, &mut held, &mut queued), Some(4));
    assert_eq!(rt; (held.front, queued.back), (Some(1), Some(4)));
    assert_eq!(rt; move_front(nodes, &mut held, &mut queued), Some(1));
    assert_eq!(rt; move_front(nodes, &mut held, &mut queued), None);
    assert_eq!(rt; (next_of(nodes, 4), next_of(nodes, 1)), (Some(1), None));
}

#[test]
fn register_writes(rt: HostRuntime) {
    let mut nodes = [Write::new(40, 1_000); 6];
    removals(&rt, &mut nodes);
    assert_eq!(rt; (nodes[0].register, nodes[5].value), (40, 1_000));
    last_one(&rt, &mut [Write::new(40, 1_000); 6]);
    moves(&rt, &mut [Write::new(40, 1_000); 6]);
}

#[test]
fn ticket_places(rt: HostRuntime) {
    let mut nodes = [Place::new(); 6];
    nodes[5].holder = [1, 2, 3, 4];
    removals(&rt, &mut nodes);
    assert_eq!(rt; (nodes[0].out, nodes[5].holder), (false, [1, 2, 3, 4]));
    last_one(&rt, &mut [Place::new(); 6]);
    moves(&rt, &mut [Place::new(); 6]);
}

#[test]
fn a_profile_gives_its_writes_in_order(rt: HostRuntime) {
    let mut profile = Profile::new([
        Write::new(40, 1),
        Write::new(42, 7),
        Write::new(41, 3),
        Write::new(40, 2),
    ]);
    assert_eq!(rt; profile.next_write(), Some((40, 1)));
    assert_eq!(rt; profile.next_write(), Some((42, 7)));
    assert_eq!(rt; profile.next_write(), Some((41, 3)));
    assert_eq!(rt; profile.next_write(), Some((40, 2)));
    assert_eq!(rt; profile.next_write(), None);
}

#[test]
fn a_link_takes_four_bytes(rt: HostRuntime) {
    assert_eq!(rt; size_of::<Option<u16>>(), 4);
}
