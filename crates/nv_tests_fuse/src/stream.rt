//! Streams that are cut.

use crate::compare::same_for;
use nv_fuse::{Front, Request};
use std::test::Fail;

/// Two requests, of 40 bytes and of 43, and three bytes of a third.
const STREAM: &[u8; 86] =
    b"\x28\0\0\0\x11\0\0\0\0\0\0\0\0\0\0\0\0\0\0\0\0\0\0\0\0\0\0\0\0\0\0\0\0\0\0\0\0\0\0\0\
    \x2b\0\0\0\x01\0\0\0\0\0\0\0\0\0\0\0\0\0\0\0\0\0\0\0\0\0\0\0\0\0\0\0\0\0\0\0\0\0\0\0ab\0\
    \x28\0\0";

/// A stream of several requests, worked out by hand.
#[test]
fn cuts_where_lengths_tell(rt: HostRuntime) {
    let stream = STREAM.as_slice();
    let (request, behind) = (&stream[..40], &stream[40..]);
    same_for(&rt, &1, Front::of(stream), Front::Whole { request, behind });
    let (second, rest) = (&behind[..43], &behind[43..]);
    same_for(
        &rt,
        &2,
        Front::of(behind),
        Front::Whole {
            request: second,
            behind: rest,
        },
    );
    same_for(&rt, &3, Front::of(rest), Front::Part);
    same_for(&rt, &4, Front::of(&stream[..39]), Front::Part);
    same_for(&rt, &5, Front::of(&[]), Front::Part);
    same_for(&rt, &6, Front::of(b"\x27\0\0\0".as_slice()), Front::Broken);
    same_for(&rt, &7, Front::of(b"\x28\0\0\0".as_slice()), Front::Part);
    same_for(
        &rt,
        &8,
        Front::of(b"\xff\xff\xff\xff".as_slice()),
        Front::Part,
    );
    same_for(&rt, &9, Request::read(stream).is_some(), false);
    same_for(&rt, &10, Request::read(&stream[..39]).is_some(), false);
    same_for(&rt, &11, Request::read(request).is_some(), true);
    same_for(&rt, &12, Request::read(&[]).is_some(), false);
}
