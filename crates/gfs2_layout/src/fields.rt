ghost use Rattle.std.specs.Prelude.{◌≡◌, ◌≤◌, length, ◌∷◌, []};
ghost use Rattle.gfs2_layout.specs.Fields.{HasItsWidth, end_of, with_field, with_fields};
ghost use Rattle.std.specs.List.{AllByRecursion};

use crate::numbers::{put_u16, put_u32, put_u64};

/// A number that is written big-endian in its own width.
#[derive(Clone, Copy, Debug)]
pub(crate) enum Number {
    U16(u16),
    U32(u32),
    U64(u64),
}

fn put_field(bytes: &mut [u8], field: (usize, Number))
    requires { end_of (field ∷ []) ≤ length bytes.old }
    ensures bytes { bytes.new ≡ with_field field bytes.old }
    ensures width { HasItsWidth field }
{
    let (at, number) = field;
    match number {
        Number::U16(number) => put_u16(bytes, at, number),
        Number::U32(number) => put_u32(bytes, at, number),
        Number::U64(number) => put_u64(bytes, at, number),
    }
}

/// Writes the fields of a structure, each at its place.
pub(crate) fn put_fields(bytes: &mut [u8], fields: &[(usize, Number)])
    requires { end_of fields.now ≤ length bytes.old }
    ensures bytes { bytes.new ≡ with_fields fields.now bytes.old }
    ensures widths { AllByRecursion HasItsWidth fields.now }
{
    for field in fields {
        put_field(bytes, *field);
    }
}
