//! Numbers that are written at the end of bytes, where there is room.

ghost use Rattle.std.specs.Prelude.{◌≡◌, ◌≤◌, ◌+◌, ◌*◌, ◌++◌, length, vec_capacity, vec_len};
ghost use Rattle.std.specs.List.{flat_map};
ghost use Rattle.nv_fuse.specs.Written.{field_bytes};

/// A number of two, four or eight bytes.
#[derive(Clone, Copy, Debug, Drop)]
pub(crate) enum Field {
    Half(u16),
    Word(u32),
    Long(u64),
}

/// Appends the bytes of numbers, where there is room for eight bytes of each.
pub(crate) fn put_fields(out: &mut Vec<u8>, fields: &[Field])
    requires { vec_len out.old + 8 * length fields.now ≤ vec_capacity out.old }
    ensures items { out.new.items ≡ out.old.items ++ flat_map field_bytes fields.now }
    ensures len { vec_len out.new ≤ vec_len out.old + 8 * length fields.now }
    ensures capacity { vec_capacity out.old ≤ vec_capacity out.new }
{
    for field in fields {
        put_field(out, *field);
    }
}

/// Appends the bytes of a number.
fn put_field(out: &mut Vec<u8>, field: Field)
    requires { vec_len out.old + 8 ≤ vec_capacity out.old }
    ensures items { out.new.items ≡ out.old.items ++ field_bytes field }
    ensures len { vec_len out.new ≤ vec_len out.old + 8 }
    ensures capacity { vec_capacity out.old ≤ vec_capacity out.new }
{
    match field {
        Field::Half(x) => put(out, &x.to_le_bytes()),
        Field::Word(x) => put(out, &x.to_le_bytes()),
        Field::Long(x) => put(out, &x.to_le_bytes()),
    }
}

/// Appends bytes.
pub(crate) fn put(out: &mut Vec<u8>, bytes: &[u8])
    requires { vec_len out.old + length bytes.now ≤ vec_capacity out.old }
    ensures items { out.new.items ≡ out.old.items ++ bytes.now }
    ensures len { vec_len out.new ≡ vec_len out.old + length bytes.now }
    ensures capacity { vec_capacity out.old ≤ vec_capacity out.new }
{
    // There is room, so that this does not fail.
    let _done = out.extend_from_slice(bytes);
}
