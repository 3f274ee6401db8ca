//! Events that are made all together, and parts that become a world.

use crate::compare::same;
use Words::{Create, Write};
use nv_core::{Event, Reply, World};
use nv_scenes::{Row, geometry};
use nv_scenes_calls::words::{At, Words, call};
use std::alloc::Global;
use std::test::Fail;

const DEVICE: Row = [16, 2, 4, 4, 8, 4, 3];

const ROOT: At = (0, 1);

/// Calls of actors, with how many steps each has.
const CALLS: &[(u64, Words, usize)] = &[
    (0, Create(ROOT, b"log.txt"), 18),
    (1, Create(ROOT, b"b"), 18),
    // lock, check, blocks, ready, enter, append, publish, retire, leave, unlock
    (0, Write((1, 1), 2, b"hello"), 10),
];

/// The events of each of the calls.
fn events(alloc: Global) -> Result<Vec<Event>, Fail> {
    let mut events = Vec::new(alloc);
    for (actor, words, steps) in CALLS {
        let call = call(alloc, words).ok_or("a call")?;
        events
            .push(Event::Start(*actor, call))
            .ok()
            .ok_or("memory for an event")?;
        for _step in 0..*steps {
            events
                .push(Event::Go(*actor))
                .ok()
                .ok_or("memory for an event")?;
        }
    }
    Ok(events)
}

/// What may be sent to other threads, as a world may.
fn is_sent<T: Send>(_: &T) {}

/// `run` and `from_parts` are granted memory, which a clause lets them miss; and a world is `Send`.
#[test]
fn runs_and_parts_are_granted_memory(rt: HostRuntime) -> Result<(), Fail> {
    let mut world = World::format(rt.alloc(), geometry(DEVICE)?)?;
    match world.run(events(rt.alloc())?) {
        Ok(replies) => {
            same(&rt, replies.len(), 49);
            let last = replies.last().ok_or("a reply")?;
            same(&rt, matches!(last, Reply::Done(_)), true);
        }
        Err(_) => panic!(rt; "memory for replies"),
    }
    let Ok(parts) = world.into_parts() else {
        panic!(rt; "no actor has a call");
    };
    let Ok(world) = World::from_parts(rt.alloc(), parts) else {
        panic!(rt; "memory for a world of parts");
    };
    is_sent(&world);
    same(&rt, world.tree()?.as_slice().len(), 3);
    Ok(())
}
