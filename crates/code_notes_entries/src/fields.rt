// Two rows beside each other.
ghost use Rattle.std.specs.Prelude.{◌≡◌};
ghost use Rattle.spec_notes.specs.Touched.{same_row};

use base_rows::rows::Row;

// Whether two rows are the same.
pub fn same_rows(x: Row, y: Row) -> bool
    ensures { result ≡ same_row x.fields y.fields }
{
    x.fields == y.fields
}
