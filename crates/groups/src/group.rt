// A group: the t + 1 replicas that serve a view.
ghost use Rattle.std.specs.Prelude.{◌≡◌, ◌%◌, ◌<◌, Some, length, slice_get};
ghost use Rattle.groups.specs.Groups.{group, among, leader, follows};
ghost use Rattle.groups.specs.Asked.{members_of, members_in, asked};

use wire::config::{ClusterConfig, ClusterSize};
use wire::fault::ReadFault;
use wire::kind::LAST_VIEW;

// The rows are written out, since the laws are computed from them. The two tables differ in what they hold.
const ROWS_OF_THREE: [[u8; 2]; 3] = [[0, 1], [0, 2], [1, 2]];

const ROWS_OF_FIVE: [[u8; 3]; 10] = [
    [0, 1, 2],
    [0, 1, 3],
    [0, 1, 4],
    [0, 2, 3],
    [0, 2, 4],
    [0, 3, 4],
    [1, 2, 3],
    [1, 2, 4],
    [1, 3, 4],
    [2, 3, 4],
];

// The row of a table that serves a view.
fn row<const K: usize>(rows: &'static [[u8; K]], view: u32) -> &'static [u8]
    requires { 0 < length rows.now }
    ensures { slice_get rows.now (view % length rows.now) ≡ Some result.now }
{
    &rows[view as usize % rows.len()]
}

// The members in rising order.
#[derive(Clone, Copy)]
pub struct Group {
    members: &'static [u8],
}

impl Group {
    // the group that serves a view
    pub fn serving(config: ClusterConfig, view: u32) -> Group
        ensures { members_of result ≡ group config view }
    {
        let members = match config.size() {
            ClusterSize::Three => row(&ROWS_OF_THREE, view),
            ClusterSize::Five => row(&ROWS_OF_FIVE, view),
        };
        Group { members }
    }

    // the group of a view that exists
    pub fn of_view(config: ClusterConfig, view: u32) -> Result<Group, ReadFault>
        ensures { members_in result ≡ asked config view }
    {
        if view > LAST_VIEW {
            return Err(ReadFault::Setting);
        }
        Ok(Group::serving(config, view))
    }

    pub fn members(&self) -> &[u8]
        ensures { result.now ≡ members_of self.now }
    {
        self.members
    }

    pub fn contains(&self, replica: u8) -> bool
        ensures { result ≡ among (members_of self.now) replica }
    {
        self.members.contains(&replica)
    }

    pub fn primary(&self) -> u8
        ensures { result ≡ leader (members_of self.now) }
    {
        self.members.first().copied().unwrap_or(0)
    }

    pub fn is_follower(&self, replica: u8) -> bool
        ensures { result ≡ follows (members_of self.now) replica }
    {
        self.contains(replica) && replica != self.primary()
    }
}
