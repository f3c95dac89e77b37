// Nodes that go out for the parents of others, and calls that are refused meanwhile.
use super::counted::{Counted, Quarters, booted, shape};
use fakes::Access;
use sec_base::{Evidence, Layout, MemStop};
use std::alloc::Global;
use std::process::Abort;
use std::test::Fail;

// A tree whose level 2 has 64 nodes in 8 sets, and four pages whose nodes of level 1 share a set, and whose nodes of level 2 do as
// well: page 0, and those once, twice and three times so far from it. Their nodes of level 2 are 0, 8, 16 and 24.
#[derive(Clone, Copy)]
struct Sharing {
    layout: Layout,
    levels: u8,
    // From a page to the next, and from its node of level 1.
    page: u32,
    node: u32,
}

const SHARING: [Sharing; 2] = [
    Sharing {
        layout: Layout::One,
        levels: 5,
        page: 128,
        node: 32,
    },
    Sharing {
        layout: Layout::Two,
        levels: 4,
        page: 512,
        node: 64,
    },
];

impl Sharing {
    fn page(&self, rt: &impl Abort, times: u32) -> u32 {
        assert!(rt; self.page <= 512 && times <= 3);
        times * self.page
    }

    fn node(&self, rt: &impl Abort, times: u32) -> u32 {
        assert!(rt; self.node <= 64 && times <= 3);
        times * self.node
    }

    // After these updates the first and the third node of level 1 have copies, and of level 2 the fourth and the third: the first
    // of each two goes out next.
    fn climbing(&self, rt: &impl Abort, alloc: Global) -> Result<Counted<Quarters>, Fail> {
        let mut tree = booted(alloc, shape(self.layout, self.levels)?)?;
        for (times, byte) in [(0, 1), (1, 2), (3, 3), (0, 4), (2, 5)] {
            assert_eq!(rt; tree.update(rt, self.page(rt, times), &[byte; 64]), Ok(()));
        }
        tree.bus.clear_log();
        Ok(tree)
    }

    // A fetch of the fourth page needs its node of level 1, for which that of page 0 goes out, whose parent (2, 0) has no copy:
    // for that (2, 24) goes out, and comes back as the parent of the one that is needed.
    fn climb(&self, rt: &impl Abort) -> [Access; 6] {
        [
            Access::WriteNode(2, 24),
            Access::ReadNode(2, 0),
            Access::WriteNode(1, 0),
            Access::ReadNode(2, 24),
            Access::ReadNode(1, self.node(rt, 3)),
            Access::ReadNode(0, self.page(rt, 3)),
        ]
    }
}

#[test]
fn a_node_goes_out_for_the_parent_of_one_that_goes_out(rt: HostRuntime) -> Result<(), Fail> {
    for sharing in SHARING {
        let mut tree = sharing.climbing(&rt, rt.alloc())?;
        let (second, third) = (sharing.page(&rt, 1), sharing.page(&rt, 2));
        let (second_node, third_node) = (sharing.node(&rt, 1), sharing.node(&rt, 2));
        tree.fetches(&rt, sharing.page(&rt, 3), 3, &sharing.climb(&rt));
        let back = [
            Access::WriteNode(2, 0),
            Access::WriteNode(1, third_node),
            Access::ReadNode(2, 0),
            Access::ReadNode(1, 0),
            Access::ReadNode(0, 0),
        ];
        tree.fetches(&rt, 0, 4, &back);
        let hit = [Access::ReadNode(1, third_node), Access::ReadNode(0, third)];
        tree.fetches(&rt, third, 5, &hit);
        let path = [
            Access::ReadNode(2, 8),
            Access::ReadNode(1, second_node),
            Access::ReadNode(0, second),
        ];
        tree.fetches(&rt, second, 2, &path);
    }
    Ok(())
}

// A call is refused after so many accesses of the climb, of which this is the last one. How many messages were made then.
fn refused_climb(
    rt: &impl Abort,
    alloc: Global,
    sharing: &Sharing,
    left: u8,
    update: Option<u8>,
    last: Access,
) -> Result<(u64, Option<Evidence>), Fail> {
    let mut tree = sharing.climbing(rt, alloc)?;
    tree.bus.refuse_after(u64::from(left));
    assert_eq!(rt;
        (left, tree.stop(rt, sharing.page(rt, 3), update)),
        (left, Some(MemStop::NoMemory))
    );
    let mut wanted = sharing.climb(rt);
    wanted[5] = last;
    assert!(rt; (left as usize) < wanted.len());
    assert!(rt; tree.asked(&wanted[..=left as usize]), "{left}");
    Ok(tree.finish())
}

// The updates make ten messages: that of each page, and those of five nodes that went out. The message of a write that is
// refused was made.
#[test]
fn a_call_that_writes_other_nodes_is_refused_at_each_access(rt: HostRuntime) -> Result<(), Fail> {
    let rows = [
        (0, 11, 11),
        (1, 11, 11),
        (2, 12, 12),
        (3, 12, 12),
        (4, 12, 12),
        (5, 12, 13),
    ];
    for sharing in SHARING {
        let page = sharing.page(&rt, 3);
        for (left, by_fetch, by_update) in rows {
            let read = Access::ReadNode(0, page);
            let write = Access::WriteNode(0, page);
            let fetch = refused_climb(&rt, rt.alloc(), &sharing, left, None, read)?;
            assert_eq!(rt; fetch, (by_fetch, None), "{left}");
            let update = refused_climb(&rt, rt.alloc(), &sharing, left, Some(6), write)?;
            assert_eq!(rt; update, (by_update, None), "{left}");
        }
    }
    Ok(())
}

// A call for the fourth page is refused after so many accesses. The next calls answer, and all pages have their blocks.
fn keeps_blocks(
    rt: &impl Abort,
    alloc: Global,
    sharing: &Sharing,
    left: u64,
    update: Option<u8>,
) -> Result<(), Fail> {
    let mut tree = sharing.climbing(rt, alloc)?;
    tree.bus.refuse_after(left);
    let stop = tree.stop(rt, sharing.page(rt, 3), update);
    assert_eq!(rt; (left, stop), (left, Some(MemStop::NoMemory)));
    tree.bus.refuse_none();
    tree.has(rt, sharing.page(rt, 3), 3);
    tree.has(rt, 0, 4);
    tree.has(rt, sharing.page(rt, 1), 2);
    tree.has(rt, sharing.page(rt, 2), 5);
    Ok(())
}

// Contracts leave it open: after want of memory a tree need not fit its bus.
#[test]
fn a_call_that_was_refused_changes_no_block(rt: HostRuntime) -> Result<(), Fail> {
    for sharing in SHARING {
        for left in 0..6u64 {
            keeps_blocks(&rt, rt.alloc(), &sharing, left, None)?;
            keeps_blocks(&rt, rt.alloc(), &sharing, left, Some(6))?;
        }
    }
    Ok(())
}
