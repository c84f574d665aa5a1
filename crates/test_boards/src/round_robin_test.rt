//! Tests of many items served by a few servers.
ghost use Rattle.std.specs.Prelude.{◌≡◌, length, IfOk};
ghost use Rattle.posters.specs.Classes.{HaveClasses};

use posters::{ClassServer, serve_all};
use std::alloc::{AllocError, Global};
use std::sync::Wait;
use std::test::Fail;
use std::thread::Threads;

/// It keeps where it was at first, by which class it was served, and how often.
#[derive(Drop)]
struct Item {
    home: u32,
    by: u32,
    served: u32,
}

/// It serves a class.
#[derive(Drop)]
struct Server {
    class: u32,
}

impl ClassServer<u32, Item> for Server {
    ghost use Rattle.std.specs.Prelude.{ℕ};

    ghost Kept = { ℕ };

    ghost Meaning = { Unit {0} };

    ghost stays = { λ server. server.class };

    ghost meaning = { λ _. tt };

    ghost class_of = { λ class. class };

    ghost ready = { λ _ _ _. Unit {0} };

    fn class(&self) -> u32 {
        self.class
    }

    #[tactic(auto, using(crate::proofs::ForTests::map_unit))]
    fn serve<R: Threads + Wait + Sync>(
        &mut self,
        rt: &R,
        board: &u32,
        classes: u32,
        numbers: &[u32],
        items: &mut [Item],
    ) {
        for item in items.iter_mut() {
            item.by = self.class;
            item.served = item.served.wrapping_add(1);
        }
    }
}

/// This many items, each at its home.
fn items_at_home(alloc: Global, count: u32) -> Result<Vec<Item>, AllocError>
    ensures { IfOk result (λ items. length items.items ≡ count) }
{
    let mut items = Vec::with_capacity(alloc, count as usize)?;
    for home in 0..count {
        items.push_reserved(Item {
            home,
            by: u32::MAX,
            served: 0,
        });
    }
    Ok(items)
}

/// A server for each class.
fn server_for_each(alloc: Global, classes: u32) -> Result<Vec<Server>, AllocError>
    ensures count { IfOk result (λ servers. length servers.items ≡ classes) }
    ensures classes { IfOk result (λ servers. HaveClasses (λ s. s.class) 0 servers.items) }
{
    let mut servers = Vec::with_capacity(alloc, classes as usize)?;
    for class in 0..classes {
        servers.push_reserved(Server { class });
    }
    Ok(servers)
}

/// Whether so many items that this many servers serve are at their places afterwards, each served once by its class, and without servers
/// not at all.
fn are_served<R: Threads + Wait + Sync>(
    rt: &R,
    alloc: Global,
    count: u32,
    classes: u32,
) -> Result<bool, AllocError> {
    let mut items = items_at_home(alloc, count)?;
    let mut servers = server_for_each(alloc, classes)?;
    serve_all(rt, alloc, &0, servers.as_mut_slice(), items.as_mut_slice())?;
    let mut place: u32 = 0;
    for item in items.iter() {
        let (by, served) = if classes == 0 {
            (u32::MAX, 0)
        } else {
            (place % classes, 1)
        };
        if item.home != place || item.by != by || item.served != served {
            return Ok(false);
        }
        place = place.wrapping_add(1);
    }
    Ok(place == count)
}

#[test]
fn each_item_is_served_once_by_its_class_and_stands_at_its_place_again(
    rt: HostRuntime,
) -> Result<(), Fail> {
    for (count, classes) in [
        (7, 3),
        (16, 4),
        (16, 16),
        (3, 5),
        (5, 1),
        (0, 2),
        // without servers nothing is served
        (4, 0),
    ] {
        let are_served = are_served(&rt, rt.alloc(), count, classes)?;
        assert!(rt; are_served, "{count} {classes}");
    }
    Ok(())
}
