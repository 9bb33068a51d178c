//! A table of five words, raised and asked.

use dx_base::Memory;
use std::alloc::Global;
use std::process::Abort;
use std::test::Fail;
use word_trees::Table;

/// Ranges with the greatest number in each, when words 1 to 3 were raised to 4, words 3 and 4 to 2, and
/// word 2 to 9.
const GREATEST: [(usize, usize, u64); 8] = [
    (0, 1, 0),
    (0, 2, 4),
    (1, 2, 4),
    (2, 3, 9),
    (3, 4, 4),
    (4, 5, 2),
    (3, 5, 4),
    (0, 5, 9),
];

fn ask(rt: &impl Abort, table: &Table) {
    for row in &GREATEST {
        if row.0 < row.1 {
            assert!(rt; table.greatest(row.0, row.1) == row.2);
        }
    }
}

fn raise_and_ask(rt: &impl Abort, alloc: Global) -> Result<(), Memory> {
    let mut table = Table::new(alloc, 5)?;
    assert!(rt; table.greatest(0, 5) == 0);
    table.raise(1, 4, 4);
    table.raise(3, 5, 2);
    table.raise(2, 3, 9);
    ask(rt, &table);
    drop(table);
    Ok(())
}

#[test]
fn the_greatest_of_a_range_is_kept(rt: HostRuntime) -> Result<(), Fail> {
    raise_and_ask(&rt, rt.alloc())?;
    Ok(())
}
