//! Laws of the requests of a mount. Each is the contract of a function that does nothing.

ghost use Rattle.std.specs.Prelude.{◌^◌, ◌<◌, ℕ, List, Option, length};
ghost use Rattle.nv_base.specs.declared.numbers.Handle.{Handle};
ghost use Rattle.nv_fuse.specs.declared.header.Header.{Header};
ghost use Rattle.nv_fuse.specs.declared.operation.SetAttributes.{SetAttributes};
ghost use Rattle.nv_mount_answers.specs.declared.kept.Time.{Time};
ghost use Rattle.nv_mount_beside.specs.declared.outcome.Outcome.{Outcome};
ghost use Rattle.nv_mounted.specs.Contents.{clean, fallocate, read_bytes, write_bytes};
ghost use Rattle.nv_mounted.specs.Dialogues.{Dialogue};
ghost use Rattle.nv_mounted.specs.Makings.{create, mkdir, mknod};
ghost use Rattle.nv_mounted.specs.Renames.{move_over_open, rename};
ghost use Rattle.nv_mounted.specs.Sets.{set_attributes};
ghost use Rattle.nv_mounted.specs.Talks.{get_attributes, lookup_name, open_node, release_file, rmdir, unlink};
ghost use Rattle.nv_mounted.specs.declared.side.Side.{Side};
ghost use Rattle.nv_serial.specs.Serial.{Serial};
ghost use Rattle.nv_mount_laws.specs.Files.{IsPlain};
ghost use Rattle.nv_mount_laws.specs.Hidden.{AreHidden, IsNewMount, KeepsHidden, NamesAnother};
ghost use Rattle.nv_mount_laws.specs.Mounts.{IsMountBehind, Step};
ghost use Rattle.nv_mount_laws.specs.Numbers.{TellsFound, TellsItself, TellsMade};
ghost use Rattle.nv_mount_laws.specs.Open.{LeavesOpenFiles, LeavesOpens, LeavesOtherFiles, LeavesReplaced, OpensMade};
ghost use Rattle.nv_mount_laws.specs.Requests.{RequestsKeepHidden, RequestsLeaveOpenFiles};
ghost use Rattle.nv_mount_laws.specs.Snapshots.{TellsAsThen};
ghost use Rattle.nv_mount_laws.specs.Refused.{ChangesNothing, IsPartlySet, IsUnnumbered, RefusedChanges, RefusedChangesNothing, RenameChanges};

/// A mount of files is one of the plain world as which they stand: so all laws of the plain world
/// hold of it.
pub fn mounts_of_files_are_plain()
    // Each dialogue that is had with files is had with the plain world as which they stand.
    ensures { (talk : Dialogue (Outcome × Side)) → IsPlain talk }
{}

/// Requests that only read change nothing of the world, answered or refused.
pub fn reading_requests_change_nothing()
    // A look-up changes nothing.
    ensures lookup { (side : Side) (dir : Handle) (name : List ℕ) → ChangesNothing (lookup_name side dir name) }
    // To get attributes changes nothing.
    ensures attributes { (side : Side) (number : ℕ) → ChangesNothing (get_attributes side number) }
    // To open a file changes nothing of the world.
    ensures open { (side : Side) (number : ℕ) → ChangesNothing (open_node side number) }
    // To read bytes changes nothing.
    ensures read { (number offset size : ℕ) → ChangesNothing (read_bytes number offset size) }
{}

/// A refused request has changed nothing: neither the world, nor what stands beside it.
pub fn refused_requests_have_changed_nothing()
    // A file that can't be opened is as often open as it was.
    ensures open { (side : Side) (number : ℕ) → RefusedChangesNothing (open_node side number) side }
    // A file that can't be released is as it was, and as often open.
    ensures release { (side : Side) (now : Time) (number : ℕ)
        → RefusedChangesNothing (release_file side now number) side }
    // A refused unlink has hidden nothing and taken nothing away.
    ensures unlink { (side : Side) (now : Time) (number : ℕ) (name : List ℕ)
        → RefusedChangesNothing (unlink side now number name) side }
    // A refused rmdir has taken nothing away.
    ensures rmdir { (side : Side) (now : Time) (number : ℕ) (name : List ℕ)
        → RefusedChangesNothing (rmdir side now number name) side }
    // A refused write has written nothing.
    ensures write { (side : Side) (now : Time) (number offset : ℕ) (bytes : List ℕ)
        → length bytes < 2 ^ 32
        → RefusedChangesNothing (write_bytes side now number offset bytes) side }
    // A refused fallocate has made no file longer.
    ensures fallocate { (side : Side) (now : Time) (number : ℕ) (end : Option ℕ) (mode : ℕ)
        → RefusedChangesNothing (fallocate side now number end mode) side }
{}

/// A refused making has made nothing, except a node that has no number: that of a slot that was
/// used 2 ^ 47 times.
pub fn refused_makings_have_made_nothing()
    // A file that is not opened.
    ensures mknod { (side : Side) (now : Time) (header : Header) (mode : ℕ) (name : List ℕ)
        → RefusedChanges IsUnnumbered (mknod side now header mode name) side }
    // A directory.
    ensures mkdir { (side : Side) (now : Time) (header : Header) (mode : ℕ) (name : List ℕ)
        → RefusedChanges IsUnnumbered (mkdir side now header mode name) side }
    // A file that is opened.
    ensures create { (side : Side) (now : Time) (header : Header) (mode : ℕ) (name : List ℕ)
        → RefusedChanges IsUnnumbered (create side now header mode name) side }
{}

/// A refused rename has changed nothing, with two exceptions. An empty directory at the new name has
/// gone, where the move over it was refused then. Or an open file there went among the hidden ones,
/// and came back.
pub fn refused_renames_have_moved_nothing()
    // Where the file can't be moved back the rename is no refusal: what stands beside the world
    // tells that it is hidden.
    ensures { (side : Side) (now : Time) (from : ℕ) (old : List ℕ) (to : ℕ) (new : List ℕ) (flags : ℕ)
        → RefusedChanges RenameChanges (rename side now from old to new flags) side }
{}

/// A refused setting of attributes has changed at most mode and size of the node that it names.
pub fn refused_settings_have_changed_their_node_at_most()
    // All other nodes, all names and what stands beside the world are as they were.
    ensures { (side : Side) (now : Time) (number : ℕ) (set : SetAttributes)
        → RefusedChanges (IsPartlySet number) (set_attributes side now number set) side }
{}

/// Each open file without a name stands in the hidden directory under its number, and nothing else
/// does.
pub fn hidden_files_stay_hidden()
    // A mount has them so behind any requests.
    ensures mount { (steps : List Step) (s : Serial) (side : Side)
        → IsMountBehind steps s side → AreHidden s side }
    // Each request leaves them, whatever it is, and however it is answered. Then another may come.
    ensures request { RequestsKeepHidden }
    // A new mount has none, and an empty directory for them.
    ensures new { (old new : Serial) (side : Side) (begun : Time)
        → IsNewMount old new side begun → AreHidden new side }
    // An unlink hides a file that is open, and leaves the others.
    ensures unlink { (side : Side) (now : Time) (number : ℕ) (name : List ℕ)
        → KeepsHidden (unlink side now number name) side }
    // An rmdir takes none of them away, and not their directory.
    ensures rmdir { (side : Side) (now : Time) (number : ℕ) (name : List ℕ)
        → KeepsHidden (rmdir side now number name) side }
    // A file that is opened is not hidden by that.
    ensures open { (side : Side) (number : ℕ) → KeepsHidden (open_node side number) side }
    // A release of an open file takes it away where it has no name and was released last.
    ensures release { (side : Side) (now : Time) (number : ℕ) → number < 2 ^ 64
        → KeepsHidden (release_file side now number) side }
    // A write changes bytes alone.
    ensures write { (side : Side) (now : Time) (number offset : ℕ) (bytes : List ℕ)
        → KeepsHidden (write_bytes side now number offset bytes) side }
    // A fallocate makes a file longer at most.
    ensures fallocate { (side : Side) (now : Time) (number : ℕ) (end : Option ℕ) (mode : ℕ)
        → KeepsHidden (fallocate side now number end mode) side }
    // Attributes that are set leave names and opens, also where the request is refused half way.
    ensures set { (side : Side) (now : Time) (number : ℕ) (set : SetAttributes)
        → KeepsHidden (set_attributes side now number set) side }
    // A file that is made elsewhere is none of them, also where the request is refused behind it.
    ensures mknod { (side : Side) (now : Time) (header : Header) (mode : ℕ) (name : List ℕ)
        → NamesAnother side header.node → KeepsHidden (mknod side now header mode name) side }
    // A directory that is made elsewhere is none of them.
    ensures mkdir { (side : Side) (now : Time) (header : Header) (mode : ℕ) (name : List ℕ)
        → NamesAnother side header.node → KeepsHidden (mkdir side now header mode name) side }
    // A file that is made elsewhere and opened is none of them.
    ensures create { (side : Side) (now : Time) (header : Header) (mode : ℕ) (name : List ℕ)
        → NamesAnother side header.node → KeepsHidden (create side now header mode name) side }
    // The cleaning of a log between requests leaves them.
    ensures clean { (side : Side) → KeepsHidden (clean side) side }
    // A rename leaves them, also where it is refused. An open file whose name it takes is one more.
    ensures rename { (side : Side) (now : Time) (from : ℕ) (old : List ℕ) (to : ℕ) (new : List ℕ)
        (flags : ℕ) → NamesAnother side from → NamesAnother side to
        → KeepsHidden (rename side now from old to new flags) side }
{}

/// A file that is open stays as it is until its last release, also where its name goes: by its
/// handle it is read and written as before.
pub fn open_files_outlive_their_names()
    // Each request leaves each open file as it is, except one that it writes, sizes or sets itself.
    ensures request { RequestsLeaveOpenFiles }
    // The cleaning of a log between requests leaves it as it is.
    ensures clean { (side : Side) → LeavesOpenFiles (clean side) side }
    // An unlink leaves each open file as it is, also the one whose name it takes away.
    ensures unlink { (side : Side) (now : Time) (number : ℕ) (name : List ℕ)
        → LeavesOpenFiles (unlink side now number name) side }
    // It leaves each node as often open as it was.
    ensures unlink_opens { (side : Side) (now : Time) (number : ℕ) (name : List ℕ)
        → LeavesOpens (unlink side now number name) side }
    // An rmdir leaves each open file as it is.
    ensures rmdir { (side : Side) (now : Time) (number : ℕ) (name : List ℕ)
        → LeavesOpenFiles (rmdir side now number name) side }
    // It leaves each node as often open as it was.
    ensures rmdir_opens { (side : Side) (now : Time) (number : ℕ) (name : List ℕ)
        → LeavesOpens (rmdir side now number name) side }
    // An opening leaves each open file as it is.
    ensures open { (side : Side) (number : ℕ) → LeavesOpenFiles (open_node side number) side }
    // A release of an open file leaves each file that is still open as it is.
    ensures release { (side : Side) (now : Time) (number : ℕ) → number < 2 ^ 64
        → LeavesOpenFiles (release_file side now number) side }
    // A file that moves over an open one leaves that as it is, also where it stays hidden.
    ensures replaced { (side : Side) (now : Time) (moved from : Handle) (old : List ℕ)
        (to : Handle) (new : List ℕ) (there : Handle)
        → LeavesReplaced (move_over_open side now moved from old to new there) side to new there }
    // A rename leaves each open file as it is, also the one whose name it takes.
    ensures rename { (side : Side) (now : Time) (from : ℕ) (old : List ℕ) (to : ℕ) (new : List ℕ)
        (flags : ℕ) → NamesAnother side from → NamesAnother side to
        → LeavesOpenFiles (rename side now from old to new flags) side }
    // It leaves each node as often open as it was.
    ensures rename_opens { (side : Side) (now : Time) (from : ℕ) (old : List ℕ) (to : ℕ)
        (new : List ℕ) (flags : ℕ) → NamesAnother side from → NamesAnother side to
        → LeavesOpens (rename side now from old to new flags) side }
{}

/// A request that changes what one file has leaves all others as they are.
pub fn changes_leave_other_files()
    // A write changes the file that it names.
    ensures write { (side : Side) (now : Time) (number offset : ℕ) (bytes : List ℕ)
        → LeavesOtherFiles (write_bytes side now number offset bytes) side number }
    // It leaves each node as often open as it was.
    ensures write_opens { (side : Side) (now : Time) (number offset : ℕ) (bytes : List ℕ)
        → LeavesOpens (write_bytes side now number offset bytes) side }
    // A fallocate changes the file that it names.
    ensures fallocate { (side : Side) (now : Time) (number : ℕ) (end : Option ℕ) (mode : ℕ)
        → LeavesOtherFiles (fallocate side now number end mode) side number }
    // It leaves each node as often open as it was.
    ensures fallocate_opens { (side : Side) (now : Time) (number : ℕ) (end : Option ℕ) (mode : ℕ)
        → LeavesOpens (fallocate side now number end mode) side }
    // A setting of attributes changes the node that it names.
    ensures set { (side : Side) (now : Time) (number : ℕ) (set : SetAttributes)
        → LeavesOtherFiles (set_attributes side now number set) side number }
    // It leaves each node as often open as it was.
    ensures set_opens { (side : Side) (now : Time) (number : ℕ) (set : SetAttributes)
        → LeavesOpens (set_attributes side now number set) side }
{}

/// A request that makes a node leaves each open file as it is, and says how often the node is open.
pub fn makings_leave_open_files()
    // A file that is made leaves each open one as it is.
    ensures mknod { (side : Side) (now : Time) (header : Header) (mode : ℕ) (name : List ℕ)
        → LeavesOpenFiles (mknod side now header mode name) side }
    // Each node is as often open as it was.
    ensures mknod_opens { (side : Side) (now : Time) (header : Header) (mode : ℕ) (name : List ℕ)
        → LeavesOpens (mknod side now header mode name) side }
    // The file itself is not open.
    ensures made { (side : Side) (now : Time) (header : Header) (mode : ℕ) (name : List ℕ)
        → OpensMade (mknod side now header mode name) side header.node name 0 }
    // A directory that is made leaves each open file as it is.
    ensures mkdir { (side : Side) (now : Time) (header : Header) (mode : ℕ) (name : List ℕ)
        → LeavesOpenFiles (mkdir side now header mode name) side }
    // Each node is as often open as it was.
    ensures mkdir_opens { (side : Side) (now : Time) (header : Header) (mode : ℕ) (name : List ℕ)
        → LeavesOpens (mkdir side now header mode name) side }
    // A file that is made and opened leaves each open one as it is.
    ensures create { (side : Side) (now : Time) (header : Header) (mode : ℕ) (name : List ℕ)
        → LeavesOpenFiles (create side now header mode name) side }
    // Each node that was there is as often open as it was.
    ensures create_opens { (side : Side) (now : Time) (header : Header) (mode : ℕ) (name : List ℕ)
        → LeavesOpens (create side now header mode name) side }
    // The file itself is open once.
    ensures created { (side : Side) (now : Time) (header : Header) (mode : ℕ) (name : List ℕ)
        → OpensMade (create side now header mode name) side header.node name 1 }
{}

/// A number that is told of a node names it: the next request with that number is about this node.
pub fn told_numbers_name_their_nodes()
    // A look-up tells the number of the node to which the name leads.
    ensures lookup { (side : Side) (dir : Handle) (name : List ℕ)
        → TellsFound (lookup_name side dir name) dir name }
    // Attributes have the number by which they were asked for.
    ensures attributes { (side : Side) (number : ℕ) → number < 2 ^ 64
        → TellsItself (get_attributes side number) number }
    // A making tells the number of the file that it made, to which the name leads.
    ensures mknod { (side : Side) (now : Time) (header : Header) (mode : ℕ) (name : List ℕ)
        → TellsMade (mknod side now header mode name) side header.node name }
    // It tells that of a directory.
    ensures mkdir { (side : Side) (now : Time) (header : Header) (mode : ℕ) (name : List ℕ)
        → TellsMade (mkdir side now header mode name) side header.node name }
    // It tells that of a file that it opened.
    ensures create { (side : Side) (now : Time) (header : Header) (mode : ℕ) (name : List ℕ)
        → TellsMade (create side now header mode name) side header.node name }
{}

/// A snapshot tells of each node what the mount told of it when the snapshot was made, without
/// set-user-id and set-group-id.
pub fn snapshots_tell_what_was_told()
    // Owners, times, kind, size and the other bits of the mode are those of that moment.
    ensures { (side : Side) (name : List ℕ) → TellsAsThen side name }
{}
