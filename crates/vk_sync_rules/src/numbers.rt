//! The numbers in the words of buffers and images.

ghost use Rattle.std.specs.Prelude.{◌≡◌, ◌+◌, ◌++◌, [], slice_index_or, take, drop, length, replicate, IfOk, None, OnOk, OnErr};
ghost use Rattle.dx_base.specs.Lists.{changed_at};
ghost use Rattle.vk_sync_rules.specs.Machines.{numbers_of, known_numbers};
ghost use Rattle.vk_sync_rules.specs.NextState.{host_range as range_of_host};
ghost use Rattle.vk_sync_rules.specs.Numbers.{numbers_in as numbers_there, opened_all, put_numbers, stored, opened};

use crate::ranges::{VkResource, WordRange};
use dx_base::{Memory, Seq};
use std::alloc::Global;

/// The words of each buffer, and of each subresource of each image; None where any number may stand.
#[derive(Debug, PartialEq, Eq, Drop)]
pub(crate) struct NumberTable {
    pub buffers: Seq<Seq<Option<u32>>>,
    pub images: Seq<Seq<Seq<Option<u32>>>>,
}

/// The first numbers of a list, as far as there are.
pub(crate) fn front_of(words: &[Option<u32>], count: u64) -> &[Option<u32>]
    ensures { result.now ≡ take count words.now }
{
    let (front, _) = words.split_at((count as usize).min(words.len()));
    front
}

/// The numbers of a list from one place on.
pub(crate) fn rest_of(words: &[Option<u32>], past: u128) -> &[Option<u32>]
    ensures { result.now ≡ drop past words.now }
{
    let (_, rest) = words.split_at(past.min(words.len() as u128) as usize);
    rest
}

/// Words, with others from one place on, and those behind them.
#[tactic(auto, using(std::proofs::Common::append_assoc))]
fn spliced(
    alloc: Global,
    words: &[Option<u32>],
    first: u64,
    new: &[Option<u32>],
) -> Result<Seq<Option<u32>>, Memory>
    ensures { IfOk result (λ after. after ≡ take first words.now ++ (new.now ++ drop (first + length new.now) words.now)) }
{
    let mut after = Seq::from_slice(alloc, front_of(words, first))?;
    after.extend_from_slice(new)?;
    after.extend_from_slice(rest_of(words, first as u128 + new.len() as u128))?;
    Ok(after)
}

/// Words, with others from one place on, as many as there were.
fn with_put(
    alloc: Global,
    words: &Seq<Option<u32>>,
    first: u64,
    new: &[Option<u32>],
) -> Result<Seq<Option<u32>>, Memory>
    ensures { IfOk result (λ after. after ≡ put_numbers first new.now words.now) }
{
    let after = spliced(alloc, words.as_slice(), first, new)?;
    Seq::from_slice(alloc, front_of(after.as_slice(), words.len() as u64))
}

/// Writes numbers into one of some lists of words; into none, where it is not there.
fn put_into(
    alloc: Global,
    lists: &mut Seq<Seq<Option<u32>>>,
    at: u32,
    first: u64,
    new: &[Option<u32>],
) -> Result<(), Memory>
    ensures ok { OnOk result (lists.new ≡ changed_at (put_numbers first new.now) at lists.old) }
    ensures same { OnErr result (lists.new ≡ lists.old) }
{
    if (at as usize) < lists.len() {
        let after = with_put(alloc, lists.at(at as usize), first, new)?;
        *lists.at_mut(at as usize) = after;
    }
    Ok(())
}

/// Numbers that are known.
fn all_known(alloc: Global, words: &[u32]) -> Result<Seq<Option<u32>>, Memory>
    ensures { IfOk result (λ numbers. numbers ≡ known_numbers words.now) }
{
    let mut numbers = Seq::new(alloc);
    for word in words {
        numbers.push(Some(*word))?;
    }
    Ok(numbers)
}

/// So many numbers that are open.
fn all_open(alloc: Global, count: usize) -> Result<Seq<Option<u32>>, Memory>
    ensures { IfOk result (λ numbers. numbers ≡ replicate count None) }
{
    let open: Option<u32> = None;
    Ok(Seq::from_vec(vec![in alloc; open; count]?))
}

/// Writes numbers into a subresource of one of some images; into none, where it is not there.
fn put_into_image(
    alloc: Global,
    images: &mut Seq<Seq<Seq<Option<u32>>>>,
    image: u32,
    sub: u32,
    first: u64,
    new: &[Option<u32>],
) -> Result<(), Memory>
    ensures { OnOk result (images.new ≡ changed_at (changed_at (put_numbers first new.now) sub) image images.old) }
{
    if (image as usize) < images.len() {
        put_into(alloc, images.at_mut(image as usize), sub, first, new)?;
    }
    Ok(())
}

/// The words at a place of some lists; none where it is not there.
fn words_at(lists: &Seq<Seq<Option<u32>>>, at: u32) -> &[Option<u32>]
    ensures { result.now ≡ slice_index_or lists.now at [] }
{
    if (at as usize) < lists.len() {
        lists.at(at as usize).as_slice()
    } else {
        &[]
    }
}

/// The words of a subresource at a place of some images; none where it is not there.
fn words_in_image(images: &Seq<Seq<Seq<Option<u32>>>>, image: u32, sub: u32) -> &[Option<u32>]
    ensures { result.now ≡ slice_index_or (slice_index_or images.now image []) sub [] }
{
    if (image as usize) < images.len() {
        words_at(images.at(image as usize), sub)
    } else {
        &[]
    }
}

/// A copy of lists of words.
fn lists_copied(
    alloc: Global,
    lists: &Seq<Seq<Option<u32>>>,
) -> Result<Seq<Seq<Option<u32>>>, Memory>
    ensures { IfOk result (λ copy. copy ≡ lists.now) }
{
    let mut copy = Seq::new(alloc);
    for list in lists.as_slice() {
        copy.push(Seq::from_slice(alloc, list.as_slice())?)?;
    }
    Ok(copy)
}

/// A copy of the words of images.
fn images_copied(
    alloc: Global,
    images: &Seq<Seq<Seq<Option<u32>>>>,
) -> Result<Seq<Seq<Seq<Option<u32>>>>, Memory>
    ensures { IfOk result (λ copy. copy ≡ images.now) }
{
    let mut copy = Seq::new(alloc);
    for image in images.as_slice() {
        copy.push(lists_copied(alloc, image)?)?;
    }
    Ok(copy)
}

impl NumberTable {
    /// A copy.
    pub(crate) fn copied(&self, alloc: Global) -> Result<NumberTable, Memory>
        ensures { IfOk result (λ copy. numbers_of copy ≡ numbers_of self.now) }
    {
        Ok(NumberTable {
            buffers: lists_copied(alloc, &self.buffers)?,
            images: images_copied(alloc, &self.images)?,
        })
    }

    /// The numbers of a buffer or a subresource; none where it is not there.
    pub(crate) fn words_of(&self, resource: VkResource) -> &[Option<u32>]
        ensures { result.now ≡ numbers_there (numbers_of self.now) resource }
    {
        match resource {
            VkResource::Buffer(buffer) => words_at(&self.buffers, buffer),
            VkResource::Image(image, sub) => words_in_image(&self.images, image, sub),
        }
    }

    /// Writes numbers over a range.
    pub(crate) fn store(
        &mut self,
        alloc: Global,
        range: WordRange,
        new: &[Option<u32>],
    ) -> Result<(), Memory>
        ensures { OnOk result (numbers_of self.new ≡ stored range new.now (numbers_of self.old)) }
    {
        match range.resource {
            VkResource::Buffer(buffer) => {
                put_into(alloc, &mut self.buffers, buffer, range.first, new)
            }
            VkResource::Image(image, sub) => {
                put_into_image(alloc, &mut self.images, image, sub, range.first, new)
            }
        }
    }

    /// Leaves any number in the words of a range.
    fn open_range(&mut self, alloc: Global, range: WordRange) -> Result<(), Memory>
        ensures { OnOk result (numbers_of self.new ≡ opened range (numbers_of self.old)) }
    {
        let new = all_open(alloc, range.count as usize)?;
        self.store(alloc, range, new.as_slice())
    }

    /// Leaves any number in the words of ranges.
    pub(crate) fn open_all(&mut self, alloc: Global, ranges: &[WordRange]) -> Result<(), Memory>
        ensures { OnOk result (numbers_of self.new ≡ opened_all ranges.now (numbers_of self.old)) }
    {
        let mut rest = ranges;
        while let Some((range, behind)) = rest.split_first() {
            self.open_range(alloc, *range)?;
            rest = behind;
        }
        Ok(())
    }

    /// Writes known numbers into a buffer.
    pub(crate) fn write(
        &mut self,
        alloc: Global,
        buffer: u32,
        first: u32,
        words: &[u32],
    ) -> Result<(), Memory>
        ensures ok { OnOk result (numbers_of self.new ≡ stored (range_of_host buffer first (length words.now)) (known_numbers words.now) (numbers_of self.old)) }
        ensures same { OnErr result (numbers_of self.new ≡ numbers_of self.old) }
    {
        let new = all_known(alloc, words)?;
        put_into(
            alloc,
            &mut self.buffers,
            buffer,
            first as u64,
            new.as_slice(),
        )
    }

    /// Leaves any number in words of a buffer.
    pub(crate) fn open(
        &mut self,
        alloc: Global,
        buffer: u32,
        first: u32,
        count: usize,
    ) -> Result<(), Memory>
        ensures ok { OnOk result (numbers_of self.new ≡ opened (range_of_host buffer first count) (numbers_of self.old)) }
        ensures same { OnErr result (numbers_of self.new ≡ numbers_of self.old) }
    {
        let new = all_open(alloc, count)?;
        put_into(
            alloc,
            &mut self.buffers,
            buffer,
            first as u64,
            new.as_slice(),
        )
    }
}
