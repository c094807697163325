//! The books of all nodes, which follow the lines of a feed.

ghost use Rattle.std.specs.Prelude.{◌≡◌, ◌≤◌, ◌++◌, Ok, IfOk, OnOk, IfErr, OnErr, length};
ghost use Rattle.dx_spec.specs.Step.{fail_as};
ghost use Rattle.dx_feed.specs.Following.{follow};
ghost use Rattle.dx_scenario.specs.Parts.{Fails};
ghost use Rattle.dx_scenario.specs.Changes.{last_node};
ghost use Rattle.dx_follow.specs.Books.{no_books, follow_at, follow_line};

use dx_feed::{Change, FollowFault, Follower};
use dx_scenario::{LineFault, read_change};
use dx_types::NoMemory;
use std::alloc::Global;

/// The number of nodes that a feed may be of.
const NODES: u32 = 16;

/// The books of the nodes 0 to 15.
#[derive(Debug, Drop)]
pub struct Books {
    /// The book of each node, by its number.
    pub followers: Vec<Follower>,
    ghost count: { length followers.items ≡ 16 },
}

/// A book follows a change, or stays as it is.
fn apply(follower: &mut Follower, change: &Change) -> Result<(), LineFault>
    ensures followed { OnOk result (follow follower.old change.now ≡ Ok follower.new) }
    ensures refused { IfErr result (λ f. Fails f (fail_as (λ code. 0) (follow follower.old change.now))) }
    ensures kept { OnErr result (follower.new ≡ follower.old) }
{
    match follower.apply(change) {
        Ok(()) => Ok(()),
        Err(FollowFault::NoSuch) => Err(LineFault::Bad { field: 0 }),
        Err(FollowFault::Held) => Err(LineFault::Bad { field: 0 }),
        Err(FollowFault::NoMemory) => Err(LineFault::NoMemory),
    }
}

impl Books {
    ghost use Rattle.std.specs.Prelude.{◌≡◌, ◌≤◌, Ok, IfOk, OnOk, IfErr, OnErr, length};

    /// Books without orders. `NoMemory` where there is no memory for them.
    pub fn new(alloc: Global) -> Result<Books, NoMemory>
        ensures { IfOk result (λ books. books.followers.items ≡ no_books) }
    {
        let mut followers = Vec::new(alloc);
        for _node in 0..NODES {
            followers.push(Follower::new(alloc))?;
        }
        Ok(Books { followers })
    }

    /// The book of a node follows a change, or all stay as they are.
    #[tactic(auto, unfolding(crate::specs::Books::follow_at))]
    fn follow(&mut self, node: u32, change: &Change) -> Result<(), LineFault>
        requires { node ≤ last_node }
        ensures followed { OnOk result
            (follow_at self.old.followers.items node change.now ≡ Ok self.new.followers.items) }
        ensures refused { IfErr result
            (λ f. Fails f (fail_as (λ code. 0) (follow_at self.old.followers.items node change.now))) }
        ensures kept { OnErr result (self.new.followers.items ≡ self.old.followers.items) }
    {
        apply(&mut self.followers[node as usize], change)
    }

    /// The books follow a line of a feed, which has no newline.
    ///
    /// # Errors
    ///
    /// `Bad` with the field 0 exactly where the line has none of the four forms, or a book refuses its change;
    /// `NoMemory` where there is no memory. The books are then as before.
    pub fn take(&mut self, alloc: Global, line: &[u8]) -> Result<(), LineFault>
        ensures taken { OnOk result (follow_line self.old.followers.items line.now ≡ Ok self.new.followers.items) }
        ensures bad { IfErr result (λ f. Fails f (follow_line self.old.followers.items line.now)) }
        ensures kept { OnErr result (self.new.followers.items ≡ self.old.followers.items) }
    {
        let (node, change) = match read_change(alloc, line) {
            Ok(told) => told,
            Err(fault) => return Err(fault),
        };
        self.follow(node, &change)
    }
}
