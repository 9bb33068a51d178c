//! Look-ups of a key in the rows of a table.

ghost use Rattle.std.specs.Prelude.{◌≡◌};
ghost use Rattle.lower_tables.specs.Rows.{first_value};

/// The value of the first row with that key. None exactly where no row has it.
pub fn first_row<const N: usize, V: Copy>(rows: &[(u32, V); N], key: u32) -> Option<V>
    ensures { result ≡ first_value key rows.now }
{
    for row in rows {
        if row.0 == key {
            return Some(row.1);
        }
    }
    None
}
