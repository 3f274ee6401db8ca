//! Why a request is refused.

ghost use Rattle.std.specs.Prelude.{◌≡◌, ◌≤◌};
ghost use Rattle.nv_fuse.specs.Errors.{number_of};

/// An error that a reply tells, by the kernel's numbers.
#[derive(Clone, Copy, Debug, PartialEq, Eq, Drop)]
pub enum Errno {
    /// `EPERM`
    NotPermitted,
    /// `ENOENT`
    Missing,
    /// `EIO`
    InputOutput,
    /// `ENOMEM`
    OutOfMemory,
    /// `EBUSY`
    Busy,
    /// `EEXIST`
    Exists,
    /// `EXDEV`
    CrossDevice,
    /// `ENOTDIR`
    NotDirectory,
    /// `EISDIR`
    IsDirectory,
    /// `EINVAL`
    Invalid,
    /// `EFBIG`
    FileTooBig,
    /// `ENOSPC`
    NoSpace,
    /// `EROFS`
    ReadOnly,
    /// `ENAMETOOLONG`
    NameTooLong,
    /// `ENOSYS`: the kernel asks no more for this operation.
    NotImplemented,
    /// `ENOTEMPTY`
    NotEmpty,
    /// `EOPNOTSUPP`
    NotSupported,
    /// `ESTALE`
    Stale,
}

impl Errno {
    /// The number of the error.
    pub fn number(self) -> u32
        // Each error is told by the kernel's number for it.
        ensures number { result ≡ number_of self }
        // No error has the number 0, which stands for none.
        ensures some { 1 ≤ result }
    {
        match self {
            Errno::NotPermitted => 1,
            Errno::Missing => 2,
            Errno::InputOutput => 5,
            Errno::OutOfMemory => 12,
            Errno::Busy => 16,
            Errno::Exists => 17,
            Errno::CrossDevice => 18,
            Errno::NotDirectory => 20,
            Errno::IsDirectory => 21,
            Errno::Invalid => 22,
            Errno::FileTooBig => 27,
            Errno::NoSpace => 28,
            Errno::ReadOnly => 30,
            Errno::NameTooLong => 36,
            Errno::NotImplemented => 38,
            Errno::NotEmpty => 39,
            Errno::NotSupported => 95,
            Errno::Stale => 116,
        }
    }
}
