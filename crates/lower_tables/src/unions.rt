//! The union over the rows of a table.

ghost use Rattle.std.specs.Prelude.{◌≡◌, ◌==◌, if◌then◌else◌, bit_and, bit_or};
ghost use Rattle.lower_tables.specs.Unions.{united};

/// The bits of all rows whose name is in the set.
pub fn union_of<const N: usize>(rows: &[(u32, u32); N], set: u32) -> u32
    ensures { result ≡ united (λ row. bit_and set row.0 == row.0) (λ row. row.1) 0 rows.now }
{
    let mut bits = 0;
    for row in rows {
        bits = with_row(bits, *row, set);
    }
    bits
}

/// Some bits, with those of a row whose name is in the set.
fn with_row(bits: u32, row: (u32, u32), set: u32) -> u32
    ensures { result ≡ if bit_and set row.0 == row.0 then bit_or bits row.1 else bits }
{
    if set & row.0 == row.0 {
        bits | row.1
    } else {
        bits
    }
}
