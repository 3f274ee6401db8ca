//! Bodies of requests, from bytes.

ghost use Rattle.nv_fuse.specs.Requests.{IsRead};

pub(crate) mod files;
pub(crate) mod names;
pub(crate) mod nodes;
pub(crate) mod numbers;

use crate::operation::Operation;

/// What the body of an operation with this number is read as.
pub(crate) fn body(number: u32, body: &[u8]) -> Operation<'_>
    ensures { IsRead number body.now result }
{
    match number {
        1 => names::lookup(body),
        2 => nodes::forget(body),
        3 => nodes::get_attributes(body),
        4 => nodes::set_attributes(body),
        8 => names::mknod(body),
        9 => names::mkdir(body),
        10 => names::unlink(body),
        11 => names::rmdir(body),
        12 => names::rename(body),
        13 => names::link(body),
        14 => files::open(body),
        15 => files::read(body),
        16 => files::write(body),
        17 => Operation::Statfs,
        18 => files::release(body),
        20 => files::fsync(body),
        25 => files::flush(body),
        26 => nodes::init(body),
        27 => files::open_directory(body),
        28 => files::read_directory(body),
        29 => files::release_directory(body),
        30 => files::fsync_directory(body),
        35 => names::create(body),
        38 => Operation::Destroy,
        42 => nodes::forget_many(body),
        43 => files::fallocate(body),
        45 => names::rename2(body),
        _ => Operation::Other,
    }
}
