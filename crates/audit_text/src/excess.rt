//! How far an error is beyond a bound.

ghost use Rattle.std.specs.Prelude.{◌≡◌, ◌<◌, ◌^◌};
ghost use Rattle.line_writer.specs.Field.{field_data};
ghost use Rattle.audit_text.specs.Excess as spec;

use line_writer::{Field, longer};

/// The size of an error of so many ticks, in whole nanoseconds, rounded up.
pub(crate) fn size_of(error: i64) -> u128
    ensures { result ≡ spec.size_of error }
{
    longer(u128::from(error.unsigned_abs()))
}

/// The error itself, rounded away from zero.
pub(crate) fn error_field(error: i64) -> Field<'static>
    ensures { field_data result ≡ spec.error_field error }
{
    if error < 0 {
        Field::Low(i128::from(error))
    } else {
        Field::High(i128::from(error))
    }
}
