//! Requests with one header.

use crate::compare::same_for;
use nv_fuse::{Header, Operation, Request};
use std::alloc::Global;
use std::process::Abort;
use std::test::Fail;

/// A header of `fuse_in_header`: 40 bytes, here with the length 40 and the operation 0. The request has number
/// 0x0807060504030201, and node 0x1817161514131211. User 1000 and group 100 ask by process 0x1234.
const HEADER: [u8; 40] = [
    40, 0, 0, 0, 0, 0, 0, 0, 1, 2, 3, 4, 5, 6, 7, 8, 0x11, 0x12, 0x13, 0x14, 0x15, 0x16, 0x17,
    0x18, 0xe8, 3, 0, 0, 100, 0, 0, 0, 0x34, 0x12, 0, 0, 9, 9, 9, 9,
];

/// The same, as it is read.
pub fn header(operation: u32) -> Header {
    Header {
        operation,
        unique: 0x0807_0605_0403_0201,
        node: 0x1817_1615_1413_1211,
        user: 1000,
        group: 100,
        process: 0x1234,
    }
}

/// The bytes of a request of an operation below 256, with less than 216 bytes behind its header.
pub fn message(alloc: Global, operation: u8, body: &[u8]) -> Result<Vec<u8>, Fail> {
    let mut bytes = Vec::from_slice(alloc, HEADER.as_slice())?;
    bytes.extend_from_slice(body)?;
    let length = (bytes.len() % 256) as u8;
    if bytes.len() > 4 {
        bytes[0] = length;
        bytes[4] = operation;
    }
    Ok(bytes)
}

/// Reads a request, whole and with its last byte cut off, in the body and in the length.
pub fn reads(
    rt: &impl Abort,
    alloc: Global,
    row: (u8, &[u8], Operation<'_>, Operation<'_>),
) -> Result<(), Fail> {
    let (number, body, want, want_of_cut) = row;
    let bytes = message(alloc, number, body)?;
    reads_as(rt, alloc, number, &bytes, want)?;
    if body.is_empty() {
        return Ok(());
    }
    let bytes = message(alloc, number, &body[..body.len() - 1])?;
    reads_as(rt, alloc, number, &bytes, want_of_cut)
}

/// Reads one message. Requests are compared by their texts.
fn reads_as(
    rt: &impl Abort,
    alloc: Global,
    number: u8,
    bytes: &[u8],
    operation: Operation<'_>,
) -> Result<(), Fail> {
    let header = header(u32::from(number));
    let found = format!(in alloc; "{:?}", Request::read(bytes))?;
    let want = format!(in alloc; "{:?}", Some(Request { header, operation }))?;
    same_for(rt, &number, found.as_str(), want.as_str());
    Ok(())
}
