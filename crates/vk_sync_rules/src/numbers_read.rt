//! The numbers that commands read.

ghost use Rattle.std.specs.Prelude.{◌≡◌, ◌++◌, [], ◌∷◌, if◌then◌else◌, map, None, IfOk, OnOk};
ghost use Rattle.std.specs.List.{flat_map, list_any};
ghost use Rattle.vk_sync_rules.specs.Dispatches.{known as known_number, known_in as known_there};
ghost use Rattle.vk_sync_rules.specs.Machines.{is_seen_in, numbers_of, state_of};
ghost use Rattle.vk_sync_rules.specs.NextState.{is_open as is_open_number, numbers_read as numbers_seen, reads_open as does_read_open, rows_stored, where_seen};
ghost use Rattle.vk_sync_rules.specs.Pieces.{does_write, written_ranges as ranges_written};

use crate::access_sets::is_some;
use crate::accesses::{DoneAccess, Side};
use crate::command_rules::Site;
use crate::copies::CopiedRow;
use crate::last_writes::last_write;
use crate::machine::VkMachine;
use crate::numbers::{NumberTable, front_of, rest_of};
use crate::pieces::Piece;
use crate::ranges::{VkResource, WordRange};
use dx_base::{Memory, Seq};
use std::alloc::Global;
use vk_types::Accesses;

/// Whether a command sees the last write of a word, if there is one.
fn is_seen(
    accesses: &[DoneAccess],
    site: Site,
    reads: Accesses,
    resource: VkResource,
    word: u128,
) -> bool
    ensures { result ≡ is_seen_in accesses.now site.queue site.stages reads site.place resource word }
{
    match last_write(accesses, resource, word) {
        None => true,
        Some(write) => {
            let side = Side {
                stages: site.stages,
                accesses: reads,
            };
            write.is_seen(site.queue as u64, side, site.place)
        }
    }
}

/// A number, or any where it is not seen.
fn number_if(seen: bool, number: Option<u32>) -> Option<u32>
    ensures { result ≡ (if seen then number else None) }
{
    if seen { number } else { None }
}

/// Numbers of a range, from its first word on; any number where a command does not see the last write.
#[tactic(auto, using(crate::proofs::PieceSteps::seen_more))]
fn seen_numbers(
    alloc: Global,
    accesses: &[DoneAccess],
    site: Site,
    reads: Accesses,
    range: WordRange,
    words: &Seq<Option<u32>>,
) -> Result<Seq<Option<u32>>, Memory>
    ensures { IfOk result (λ numbers. numbers ≡ where_seen (is_seen_in accesses.now site.queue site.stages reads site.place range.resource) range.first words.now) }
{
    let mut numbers = Seq::new(alloc);
    for k in 0..words.len() {
        let word = range.first as u128 + k as u128;
        let seen = is_seen(accesses, site, reads, range.resource, word);
        numbers.push(number_if(seen, *words.at(k)))?;
    }
    Ok(numbers)
}

/// Whether some number is not known.
fn some_open(numbers: &[Option<u32>]) -> bool
    ensures { result ≡ list_any is_open_number numbers.now }
{
    numbers.iter().any(|number| is_open(*number))
}

/// Whether a number is not known.
fn is_open(number: Option<u32>) -> bool
    ensures { result ≡ is_open_number number }
{
    match number {
        None => true,
        Some(_) => false,
    }
}

/// A number; 0 where it is not known.
fn known(number: Option<u32>) -> u32
    ensures { result ≡ known_number number }
{
    match number {
        None => 0,
        Some(number) => number,
    }
}

/// Numbers; 0 where one is not known.
fn all_known(alloc: Global, numbers: &[Option<u32>]) -> Result<Seq<u32>, Memory>
    ensures { IfOk result (λ known. known ≡ map known_number numbers.now) }
{
    let mut all = Seq::new(alloc);
    for number in numbers {
        all.push(known(*number))?;
    }
    Ok(all)
}

/// Appends the range of a piece that writes.
fn push_written(ranges: &mut Seq<WordRange>, piece: Piece) -> Result<(), Memory>
    ensures { OnOk result (ranges.new ≡ ranges.old ++ (if does_write piece then piece.range ∷ [] else [])) }
{
    if piece.does_write() {
        ranges.push(piece.range)?;
    }
    Ok(())
}

/// The words that are written.
pub(crate) fn written_ranges(alloc: Global, pieces: &[Piece]) -> Result<Seq<WordRange>, Memory>
    ensures { IfOk result (λ ranges. ranges ≡ ranges_written pieces.now) }
{
    let mut ranges = Seq::new(alloc);
    for piece in pieces {
        push_written(&mut ranges, *piece)?;
    }
    Ok(ranges)
}

impl NumberTable {
    /// The numbers of a range; 0 where one is not known.
    pub(crate) fn known_in(&self, alloc: Global, range: WordRange) -> Result<Seq<u32>, Memory>
        ensures { IfOk result (λ known. known ≡ known_there (numbers_of self.now) range) }
    {
        let words = self.words_of(range.resource);
        all_known(
            alloc,
            front_of(rest_of(words, range.first as u128), range.count),
        )
    }
}

impl VkMachine {
    /// The numbers that a command reads in a range: those of the last writes that it sees.
    fn numbers_read(
        &self,
        site: Site,
        reads: Accesses,
        range: WordRange,
    ) -> Result<Seq<Option<u32>>, Memory>
        ensures { IfOk result (λ numbers. numbers ≡ numbers_seen (state_of self.now) site.queue site.stages reads site.place range) }
    {
        let words = self.numbers.words_of(range.resource);
        let words = front_of(rest_of(words, range.first as u128), range.count);
        let words = Seq::from_slice(self.alloc, words)?;
        seen_numbers(
            self.alloc,
            self.accesses.as_slice(),
            site,
            reads,
            range,
            &words,
        )
    }

    /// Whether a command reads a word in which any number may stand, or does not see one that it reads.
    fn reads_open(&self, site: Site, piece: Piece) -> Result<bool, Memory>
        ensures { IfOk result (λ is. is ≡ does_read_open (state_of self.now) site.queue site.stages site.place piece) }
    {
        if !is_some(piece.reads) {
            return Ok(false);
        }
        let numbers = self.numbers_read(site, piece.reads, piece.range)?;
        Ok(some_open(numbers.as_slice()))
    }

    /// Whether a command does so in some piece.
    pub(crate) fn some_read_open(&self, site: Site, pieces: &[Piece]) -> Result<bool, Memory>
        ensures { IfOk result (λ is. is ≡ list_any (does_read_open (state_of self.now) site.queue site.stages site.place) pieces.now) }
    {
        let mut rest = pieces;
        while let Some((piece, behind)) = rest.split_first() {
            if self.reads_open(site, *piece)? {
                return Ok(true);
            }
            rest = behind;
        }
        Ok(false)
    }

    /// Copies rows, all read before the first is written.
    pub(crate) fn store_rows(
        &self,
        numbers: &mut NumberTable,
        site: Site,
        rows: &[CopiedRow],
    ) -> Result<(), Memory>
        ensures { OnOk result (numbers_of numbers.new ≡ rows_stored (state_of self.now) site.queue site.stages site.place rows.now (numbers_of numbers.old)) }
    {
        let mut rest = rows;
        while let Some((row, behind)) = rest.split_first() {
            let read = self.numbers_read(site, Accesses::TRANSFER_READ, row.from)?;
            numbers.store(self.alloc, row.to, read.as_slice())?;
            rest = behind;
        }
        Ok(())
    }
}
