//! Numbers of nodes, errors and attributes.

use crate::compare::same_for;
use nv_base::{Fault, Gen, Handle, Ino, Kind, Mode};
use nv_fuse::{Errno, SetAttributes};
use nv_mount_answers::{Kept, Shape, Time, attributes_of, errno_of, handle_of, node_of};

fn handle(slot: u64, generation: u64) -> Handle {
    Handle {
        ino: Ino::new(slot),
        generation: Gen::new(generation),
    }
}

fn time(seconds: u64, nanoseconds: u32) -> Time {
    Time {
        seconds,
        nanoseconds,
    }
}

const NOTHING_SET: SetAttributes = SetAttributes {
    valid: 0,
    file: 0,
    size: 0,
    lock_owner: 0,
    accessed: 5,
    modified: 6,
    changed: 7,
    accessed_nanoseconds: 50,
    modified_nanoseconds: 60,
    changed_nanoseconds: 70,
    mode: 0,
    user: 8,
    group: 9,
};

/// Numbers of nodes, worked out by hand.
#[test]
fn nodes_have_numbers(rt: HostRuntime) {
    for (slot, generation, node) in [
        (0, 1, 1),
        (1, 1, 0x1_0001),
        (65_535, 1, 0x1_ffff),
        (0, 2, 0x2_0000),
        (7, 0xffff_ffff_ffff, 0xffff_ffff_ffff_0007),
    ] {
        same_for(&rt, &node, node_of(handle(slot, generation)), Some(node));
        same_for(&rt, &node, handle_of(node), Some(handle(slot, generation)));
    }
    for node in [0, 2, 65_535, 65_536] {
        same_for(&rt, &node, handle_of(node), None);
    }
    for (slot, generation) in [(1, 0), (65_536, 1), (7, 0x1_0000_0000_0000)] {
        same_for(&rt, &slot, node_of(handle(slot, generation)), None);
    }
}

/// The error of each fault, as the headers of C number it.
#[test]
fn faults_have_errors(rt: HostRuntime) {
    for (fault, number) in [
        (Fault::Stale, 116),
        (Fault::NotFile, 21),
        (Fault::NotDirectory, 20),
        (Fault::Missing, 2),
        (Fault::NotEmpty, 39),
        (Fault::WriteTooBig, 27),
        (Fault::NoInode, 28),
        (Fault::Pinned, 16),
        (Fault::MoveDirectory, 18),
        (Fault::Contended, 5),
    ] {
        same_for(&rt, &fault, errno_of(fault).number(), number);
    }
    same_for(&rt, &"names", Errno::NameTooLong.number(), 36);
}

/// The bytes of attributes, worked out by hand from `linux/fuse.h`.
#[test]
fn attributes_are_told_and_set(rt: HostRuntime) {
    let kept = Kept {
        accessed: time(1, 10),
        modified: time(2, 20),
        changed: time(3, 30),
        user: 1000,
        group: 100,
    };
    let Some(mode) = Mode::checked(0o644) else {
        return;
    };
    for (kind, size, mode_word, blocks) in [
        (Kind::File, 513, 0o100644, 2),
        (Kind::File, 512, 0o100644, 1),
        (Kind::Dir, 0, 0o040644, 0),
    ] {
        let told = attributes_of(9, Shape { kind, mode, size }, kept);
        same_for(&rt, &size, told.mode, mode_word);
        same_for(
            &rt,
            &size,
            (told.inode, told.size, told.blocks, told.links),
            (9, size, blocks, 1),
        );
        same_for(
            &rt,
            &size,
            (told.accessed, told.modified, told.changed),
            (1, 2, 3),
        );
        same_for(&rt, &size, told.changed_nanoseconds, 30);
        same_for(&rt, &size, (told.user, told.group), (1000, 100));
    }
    let now = time(4, 40);
    for (valid, accessed, modified, user, group) in [
        (0, kept.accessed, kept.modified, 1000, 100),
        (2, kept.accessed, kept.modified, 8, 100),
        (4, kept.accessed, kept.modified, 1000, 9),
        (16, time(5, 50), kept.modified, 1000, 100),
        (16 + 128, now, kept.modified, 1000, 100),
        (32, kept.accessed, time(6, 60), 1000, 100),
        (32 + 256, kept.accessed, now, 1000, 100),
        (128 + 256, kept.accessed, kept.modified, 1000, 100),
    ] {
        let found = kept.after(
            now,
            &SetAttributes {
                valid,
                ..NOTHING_SET
            },
        );
        let want = Kept {
            accessed,
            modified,
            changed: now,
            user,
            group,
        };
        same_for(&rt, &valid, found, want);
    }
}
