//! What holds of the tables.

ghost use Rattle.std.specs.Prelude.{◌≡◌, ◌<◌, ◌+◌, ◌^◌, ◌++◌, ℕ, List, All, IsTrue, drop, length};
ghost use Rattle.nv_fuse.specs.Fields.{field};
ghost use Rattle.nv_fuse.specs.Replies.{contents_of, error_of, reply_bytes, reply_length, rows_of};
ghost use Rattle.nv_fuse.specs.Requests.{IsRequest};
ghost use Rattle.nv_fuse.specs.Rows.{Row, bytes_of, has_no_gap};
ghost use Rattle.nv_fuse.specs.declared.reply.Reply.{Reply};

/// A reply begins with its length, its error and the number of its request.
pub fn replies_begin_with_their_header()
    // The bytes of a reply are as many as its length.
    ensures length { (unique : ℕ) (x : Reply) → length (reply_bytes unique x) ≡ reply_length x }
    // The first four bytes are the length.
    ensures told { (unique : ℕ) (x : Reply) → reply_length x < 2 ^ 32
        → field 0 4 (reply_bytes unique x) ≡ length (reply_bytes unique x) }
    // The next four are the error.
    ensures error { (unique : ℕ) (x : Reply) → field 4 4 (reply_bytes unique x) ≡ error_of x }
    // The next eight are the number of the request.
    ensures unique { (unique : ℕ) (x : Reply) → unique < 2 ^ 64
        → field 8 8 (reply_bytes unique x) ≡ unique }
    // Behind them stand the fields, and then the contents.
    ensures behind { (unique : ℕ) (x : Reply) → drop 16 (reply_bytes unique x)
        ≡ bytes_of (rows_of x) ++ contents_of x }
{}

/// The places of a reply's table are those of its bytes.
pub fn reply_tables_have_no_gap()
    // Each field stands where the one before it ends.
    ensures { (x : Reply) → IsTrue (has_no_gap 0 (rows_of x)) }
{}

/// A table that is written reads back.
pub fn written_fields_read_back()
    // Each number that has the room of its width stands at its place.
    ensures { (rows : List Row) (behind : List ℕ) → IsTrue (has_no_gap 0 rows)
        → All (λ r. r.value < 256 ^ r.width
        → field r.place r.width (bytes_of rows ++ behind) ≡ r.value) rows }
{}

/// A stream is cut in one way.
pub fn requests_are_cut_in_one_way()
    // Of two requests that the same bytes begin with none is longer.
    ensures { (first second behind rest : List ℕ) → IsRequest first → IsRequest second
        → first ++ behind ≡ second ++ rest → first ≡ second }
{}
