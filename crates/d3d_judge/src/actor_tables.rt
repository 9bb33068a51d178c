//! The greatest number at each word of one subresource, of each queue or of each thread.

ghost use Rattle.std.specs.Prelude.{◌≡◌, ◌<◌, ◌≤◌, ◌^◌, length, replicate, None, IfOk, OnOk, OnErr};
ghost use Rattle.dx_base.specs.Lists.{changed_at};
ghost use Rattle.word_trees.specs.Numbers.{raised};
ghost use Rattle.d3d_judge.specs.Tables.{any_below};
ghost use Rattle.d3d_judge.specs.ActorTables.{above, actor_above, raised_table, IsMade, AreMade};

use dx_base::{Memory, Seq};
use std::alloc::Global;
use word_trees::Table;

/// No table, for each actor.
pub(crate) fn no_tables(alloc: Global, count: usize) -> Result<Seq<Option<Table>>, Memory>
    ensures { IfOk result (λ tables. tables ≡ replicate count None) }
{
    let mut tables = Seq::new(alloc);
    for _at in 0..count {
        tables.push(None)?;
    }
    Ok(tables)
}

/// Whether the greatest number of some actor in a range is above what is known of that actor.
#[tactic(auto, using(crate::proofs::ActorTables::any_hit, crate::proofs::ActorTables::any_missed))]
pub(crate) fn some_above(
    tables: &Seq<Option<Table>>,
    known: &Seq<u64>,
    first: usize,
    end: usize,
) -> bool
    requires { length tables.now ≤ length known.now }
    ensures { result ≡ any_below (length tables.now) (actor_above tables.now known.now first end) }
{
    for at in 0..tables.len() {
        if is_above(tables, at, known, first, end) {
            return true;
        }
    }
    false
}

/// Whether the greatest number of an actor in a range is above what is known of the actor.
#[tactic(auto, using(crate::proofs::ActorTables::actor_is))]
fn is_above(
    tables: &Seq<Option<Table>>,
    at: usize,
    known: &Seq<u64>,
    first: usize,
    end: usize,
) -> bool
    requires actor { at < length tables.now }
    requires known { at < length known.now }
    ensures { result ≡ actor_above tables.now known.now first end at }
{
    has_above(tables.at(at), known.as_slice()[at], first, end)
}

/// Whether the greatest number of a table in a range is above another.
#[tactic(auto, using(crate::proofs::ActorTables::none_above))]
fn has_above(table: &Option<Table>, known: u64, first: usize, end: usize) -> bool
    ensures { result ≡ above table.now known first end }
{
    match table {
        None => false,
        Some(table) => first < end && known < table.greatest(first, end),
    }
}

/// Raises the numbers of an actor in a range.
#[tactic(auto, using(dx_base::proofs::Lists::write_is_changed))]
pub(crate) fn raise_at(
    tables: &mut Seq<Option<Table>>,
    at: usize,
    first: usize,
    end: usize,
    number: u64,
)
    requires { at < length tables.old }
    ensures { tables.new ≡ changed_at (raised_table first end number) at tables.old }
{
    raise_one(tables.at_mut(at), first, end, number);
}

/// Raises the numbers of a table in a range.
fn raise_one(table: &mut Option<Table>, first: usize, end: usize, number: u64)
    ensures { table.new ≡ raised_table first end number table.old }
{
    match table {
        None => (),
        Some(table) => raise_words(table, first, end, number),
    }
}

/// Raises the numbers of words, where there are any.
#[tactic(auto, using(crate::proofs::ActorTables::none_raised))]
fn raise_words(table: &mut Table, first: usize, end: usize, number: u64)
    ensures { table.new ≡ raised 0 first end number table.old }
{
    if first < end {
        table.raise(first, end, number);
    }
}

/// Makes the table of an actor, where there is none.
pub(crate) fn make_at(
    alloc: Global,
    tables: &mut Seq<Option<Table>>,
    at: usize,
    words: usize,
) -> Result<(), Memory>
    requires actor { at < length tables.old }
    requires words { words ≤ 2 ^ 20 }
    ensures made { OnOk result (AreMade words tables.old at tables.new) }
    ensures same { OnErr result (tables.new ≡ tables.old) }
{
    make_one(alloc, tables.at_mut(at), words)
}

/// Makes a table, where there is none.
fn make_one(alloc: Global, table: &mut Option<Table>, words: usize) -> Result<(), Memory>
    requires { words ≤ 2 ^ 20 }
    ensures made { OnOk result (IsMade words table.old table.new) }
    ensures same { OnErr result (table.new ≡ table.old) }
{
    if table.is_none() {
        let made = Table::new(alloc, words)?;
        *table = Some(made);
    }
    Ok(())
}
