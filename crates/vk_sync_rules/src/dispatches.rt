//! What a dispatch touches through its registers.

ghost use Rattle.std.specs.Prelude.{◌≡◌, ◌++◌, map, None, OnOk};
ghost use Rattle.routines.specs.Uses.{words_used as words_used_by};
ghost use Rattle.vk_sync_rules.specs.Dispatches.{is_word as is_by_word, most_of as most_in, piece_of as piece_of_register, pieces_of_dispatch, used_of as used_by, views_of as views_in, word_of_count};
ghost use Rattle.vk_sync_rules.specs.Machines.{slots_in_all};
ghost use Rattle.vk_sync_rules.specs.AccessSets.{no_accesses, shader_reads};
ghost use Rattle.vk_sync_rules.specs.Registers.{answer_of};

use crate::pieces::Piece;
use crate::ranges::{VkResource, WordRange};
use crate::registers::words_of_register;
use crate::slots::Slots;
use dx_base::{Class, Memory, Routine, Seq};
use routines::{Extent, Uses};
use vk_types::{Accesses, Count, DevicePlan, Register};

/// The views of the registers of a dispatch.
#[derive(Clone, Copy, Debug, PartialEq, Eq)]
pub(crate) struct DispatchViews {
    pub t0: Option<WordRange>,
    pub t1: Option<WordRange>,
    pub u0: Option<WordRange>,
    pub b0: Option<WordRange>,
}

/// The views of the registers of a dispatch that loads these slots with these answers.
pub(crate) fn views_of(
    plan: &DevicePlan,
    slots: Slots,
    answers: &[u32],
    t0: Register,
    t1: Register,
    u0: Register,
    b0: Register,
) -> DispatchViews
    ensures { result ≡ views_in plan.now (answer_of (slots_in_all slots) answers.now) t0 t1 u0 b0 }
{
    DispatchViews {
        t0: words_of_register(plan, slots, answers, Class::Srv, t0),
        t1: words_of_register(plan, slots, answers, Class::Srv, t1),
        u0: words_of_register(plan, slots, answers, Class::Uav, u0),
        b0: words_of_register(plan, slots, answers, Class::Cbv, b0),
    }
}

/// The most invocations that a dispatch may have.
fn most_of(count: Count) -> u32
    ensures { result ≡ most_in count }
{
    match count {
        Count::Number(n) => n,
        Count::Word { most, .. } => most,
    }
}

/// Whether a word gives the number of invocations.
fn is_word(count: Count) -> bool
    ensures { result ≡ is_by_word count }
{
    match count {
        Count::Number(_) => false,
        Count::Word { .. } => true,
    }
}

/// How many words of a register that has so many are used by `n` invocations.
fn words_used(extent: Extent, n: u32, has: u64) -> u64
    ensures { result ≡ words_used_by extent n has }
{
    match extent {
        Extent::Nothing => 0,
        Extent::First => { if n == 0 { 0 } else { has.min(1) } }
        Extent::Invocations => (n as u64).min(has),
        Extent::Groups => ((n as u64 + 63) / 64).min(has),
        Extent::Whole => { if n == 0 { 0 } else { has } }
    }
}

/// The first words of a range, as many as a routine with `n` invocations uses.
pub(crate) fn used_of(extent: Extent, n: u32, range: WordRange) -> WordRange
    ensures { result ≡ used_by extent n range }
{
    WordRange {
        resource: range.resource,
        first: range.first,
        count: words_used(extent, n, range.count),
    }
}

/// Appends the words of a register that are used; nothing where there are none.
fn push_used(
    pieces: &mut Seq<Piece>,
    view: Option<WordRange>,
    extent: Extent,
    n: u32,
    reads: Accesses,
    writes: Accesses,
) -> Result<(), Memory>
    ensures { OnOk result (pieces.new ≡ pieces.old ++ piece_of_register view extent n reads writes) }
{
    let Some(range) = view else {
        return Ok(());
    };
    if words_used(extent, n, range.count) != 0 {
        pieces.push(Piece {
            range: used_of(extent, n, range),
            reads,
            writes,
            named: None,
        })?;
    }
    Ok(())
}

/// Appends the word of a count, if one gives it.
fn push_count(pieces: &mut Seq<Piece>, count: Count) -> Result<(), Memory>
    ensures { OnOk result (pieces.new ≡ pieces.old ++ map (λ word. record { range = word; reads = shader_reads; writes = no_accesses; named = None }) (word_of_count count)) }
{
    match count {
        Count::Number(_) => Ok(()),
        Count::Word { buffer, word, .. } => pieces.push(Piece {
            range: WordRange {
                resource: VkResource::Buffer(buffer),
                first: word as u64,
                count: 1,
            },
            reads: Accesses::SHADER_READ,
            writes: Accesses(0),
            named: None,
        }),
    }
}

/// Appends what a dispatch touches.
#[tactic(auto, using(std::proofs::Common::append_assoc))]
pub(crate) fn push_dispatch(
    pieces: &mut Seq<Piece>,
    routine: Routine,
    count: Count,
    views: DispatchViews,
) -> Result<(), Memory>
    ensures { OnOk result (pieces.new ≡ pieces.old ++ pieces_of_dispatch routine count views) }
{
    let used = Uses::of(routine);
    let most = most_of(count);
    let none = Accesses(0);
    let updated = if used.updates || is_word(count) {
        Accesses::SHADER_STORAGE_READ
    } else {
        none
    };
    push_count(pieces, count)?;
    push_used(pieces, views.t0, used.t0, most, Accesses::SHADER_READ, none)?;
    push_used(pieces, views.t1, used.t1, most, Accesses::SHADER_READ, none)?;
    push_used(
        pieces,
        views.b0,
        used.b0,
        most,
        Accesses::UNIFORM_READ,
        none,
    )?;
    push_used(
        pieces,
        views.u0,
        used.u0,
        most,
        updated,
        Accesses::SHADER_STORAGE_WRITE,
    )
}
