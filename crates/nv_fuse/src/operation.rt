//! What a request asks for.

/// What a request asks for, with the fields of its body. Names end before their zero byte.
#[derive(Clone, Copy, Debug, Drop)]
pub enum Operation<'a> {
    /// The first request: the version and the abilities of the kernel.
    Init {
        major: u32,
        minor: u32,
        max_readahead: u32,
        flags: u32,
    },
    /// The last request.
    Destroy,
    /// How much space there is.
    Statfs,
    /// The node with a name in the header's directory.
    Lookup {
        name: &'a [u8],
    },
    /// So many look-ups of the node end. There is no reply.
    Forget {
        lookups: u64,
    },
    /// Look-ups of so many nodes end. There is no reply.
    ForgetMany {
        count: u32,
    },
    /// A new node that is no directory.
    Mknod {
        mode: u32,
        device: u32,
        umask: u32,
        name: &'a [u8],
    },
    /// A new directory.
    Mkdir {
        mode: u32,
        umask: u32,
        name: &'a [u8],
    },
    Unlink {
        name: &'a [u8],
    },
    Rmdir {
        name: &'a [u8],
    },
    /// A name of the header's directory moves to the directory `to`.
    Rename {
        to: u64,
        old: &'a [u8],
        new: &'a [u8],
    },
    /// The same, with flags.
    Rename2 {
        to: u64,
        flags: u32,
        old: &'a [u8],
        new: &'a [u8],
    },
    /// One more name in the header's directory, of the node `linked`.
    Link {
        linked: u64,
        name: &'a [u8],
    },
    /// A new file, which is opened.
    Create {
        flags: u32,
        mode: u32,
        umask: u32,
        name: &'a [u8],
    },
    GetAttributes {
        flags: u32,
        file: u64,
    },
    SetAttributes(SetAttributes),
    Open {
        flags: u32,
    },
    /// So many bytes of a file from an offset on.
    Read {
        file: u64,
        offset: u64,
        size: u32,
        read_flags: u32,
        lock_owner: u64,
        flags: u32,
    },
    /// Bytes that go into a file at an offset.
    Write {
        file: u64,
        offset: u64,
        write_flags: u32,
        lock_owner: u64,
        flags: u32,
        bytes: &'a [u8],
    },
    /// One of the descriptors of an open file is closed.
    Flush {
        file: u64,
        lock_owner: u64,
    },
    Fsync {
        file: u64,
        flags: u32,
    },
    /// The last descriptor of an open file is closed.
    Release {
        file: u64,
        flags: u32,
        release_flags: u32,
        lock_owner: u64,
    },
    Fallocate {
        file: u64,
        offset: u64,
        size: u64,
        mode: u32,
    },
    OpenDirectory {
        flags: u32,
    },
    /// Names of an open directory from an offset on, of so many bytes at most.
    ReadDirectory {
        file: u64,
        offset: u64,
        size: u32,
    },
    FsyncDirectory {
        file: u64,
        flags: u32,
    },
    ReleaseDirectory {
        file: u64,
        flags: u32,
    },
    /// An operation of these, whose body has not its form.
    Malformed,
    /// Any other operation.
    Other,
}

/// What of a node is to change: `valid` tells by its bits which of the other fields count.
#[derive(Clone, Copy, Debug, Drop)]
pub struct SetAttributes {
    pub valid: u32,
    pub file: u64,
    pub size: u64,
    pub lock_owner: u64,
    pub accessed: u64,
    pub modified: u64,
    pub changed: u64,
    pub accessed_nanoseconds: u32,
    pub modified_nanoseconds: u32,
    pub changed_nanoseconds: u32,
    pub mode: u32,
    pub user: u32,
    pub group: u32,
}
