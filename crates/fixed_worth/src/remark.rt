//! Decides by its first field whether a line is a remark, which readers skip.

ghost use Rattle.std.specs.Prelude.{◌≡◌};
ghost use Rattle.fixed_worth.specs.Record as records;

/// Whether a line whose first field this is, is a remark: it begins with a percent sign.
pub fn is_remark(field: &[u8]) -> bool
    ensures { result ≡ records.is_remark field.now }
{
    match field {
        [] => false,
        [b, ..] => *b == b'%',
    }
}
