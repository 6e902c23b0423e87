// The groups of replicas that serve the views, and the laws that hold of them.
#![tactic(auto)]

pub mod group;
pub mod laws;

#[cfg(test)]
mod tests {
    use crate::group::Group;
    use refusals::{Layer, Refusal};
    use std::test::Fail;
    use wire::config::ClusterConfig;

    #[test]
    fn five_replicas_take_ten_turns(rt: HostRuntime) -> Result<(), Fail> {
        let five = ClusterConfig::new(5)?;
        assert_eq!(rt; Group::serving(five, 9).members(), [2u8, 3, 4].as_slice());
        assert_eq!(rt; Group::of_view(five, 10)?.members(), [0u8, 1, 2].as_slice());
        Ok(())
    }

    #[test]
    fn the_lowest_of_three_replicas_leads(rt: HostRuntime) -> Result<(), Fail> {
        let group = Group::of_view(ClusterConfig::new(3)?, 5)?;
        assert_eq!(rt; group.members(), [1u8, 2].as_slice());
        assert_eq!(rt; group.primary(), 1);
        assert!(rt; !group.contains(0) && group.is_follower(2) && !group.is_follower(1));
        Ok(())
    }

    #[test]
    fn views_end_at_999_999(rt: HostRuntime) -> Result<(), Fail> {
        let three = ClusterConfig::new(3)?;
        assert_eq!(rt;
            Group::of_view(three, 999_999)?.members(),
            [0u8, 1].as_slice()
        );
        assert_eq!(rt;
            Group::of_view(three, 1_000_000).err().map(Refusal::from),
            Some(Refusal {
                number: 3,
                layer: Layer::Reader,
                place: 0,
            })
        );
        Ok(())
    }
}
