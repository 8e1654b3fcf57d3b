//! A grid profile: register writes that are made one at a time, in their order.
ghost use Rattle.std.specs.Prelude.{◌≡◌, ◌++◌, map, option_to_list, slice_get};
ghost use Rattle.list.specs.Lists.{Sound};
ghost use Rattle.list_examples.specs.Kinds.{write_after, write_before};
ghost use Rattle.list_examples.specs.Settings.{pending, setting_of};

use crate::write::Write;
use list::linked_list::LinkedList;

/// Four register writes, of which some still wait. That their list is sound is part of the type, so
/// no function has to ask for it.
#[derive(Drop)]
pub struct Profile {
    writes: [Write; 4],
    waiting: LinkedList,
    ghost sound: { ∥ Sound write_after write_before writes waiting ∥₁ },
}

impl Profile {
    /// A profile of which all writes wait, in their order.
    pub fn new(writes: [Write; 4]) -> Profile
        ensures { pending result.writes result.waiting ≡ map setting_of writes }
    {
        let mut writes = writes;
        let mut waiting = LinkedList::new();
        for i in 0..4 {
            waiting.push_back(&mut writes, i);
        }
        Profile { writes, waiting }
    }

    /// Takes the write that has waited longest, if one waits: its register and its value.
    pub fn next_write(&mut self) -> Option<(u16, u32)>
        ensures front { result ≡ slice_get (pending self.old.writes self.old.waiting) 0 }
        ensures rest { pending self.old.writes self.old.waiting ≡ option_to_list result ++ pending self.new.writes self.new.waiting }
    {
        let i = self.waiting.pop_front(&mut self.writes)?;
        let write = self.writes[usize::from(i)];
        Some((write.register, write.value))
    }
}
