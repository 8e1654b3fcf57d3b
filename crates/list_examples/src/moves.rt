//! Records that go from one list to another.
ghost use Rattle.list.specs.Lists.{members, Sound};
ghost use Rattle.list.specs.Numbers.{Disjoint};
ghost use Rattle.list_examples.specs.Moves.{Moved};

use list::linked_list::LinkedList;
use list::node::Node;

/// Takes the first record of one list, if there is one, and puts it at the end of another; tells
/// its number.
pub fn move_front<N: Node>(
    nodes: &mut [N],
    from: &mut LinkedList,
    to: &mut LinkedList,
) -> Option<u16>
    requires from { Sound N.after N.before nodes.old from.old }
    requires to { Sound N.after N.before nodes.old to.old }
    requires apart { Disjoint (members N.after nodes.old from.old) (members N.after nodes.old to.old) }
    ensures { Moved N.after N.before N.bare nodes.old nodes.new from.old from.new to.old to.new result }
{
    let i = from.pop_front(nodes)?;
    to.push_back(nodes, i);
    Some(i)
}
