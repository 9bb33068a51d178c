//! Tables of what each routine reads and stores, worked out by hand.

ghost use Rattle.std.specs.Prelude.{◌≡◌};
ghost use Rattle.routines.specs.Puts.{number_at};
ghost use Rattle.routines.specs.Touches.{AreViews, EndsBelow, view_of};

use dx_base::{Class, Memory, ResourceId, Routine, Seq, View};
use dx_flags::Access;
use routines::{Bound, Source0, Store, Touch, WordsOf, accesses, effect};
use std::alloc::Global;
use std::process::Abort;
use std::test::Fail;

/// The words of one resource.
#[derive(Debug, Drop)]
struct Words {
    words: Seq<u32>,
}

/// A number of a list, and 0 past its end.
fn number(numbers: &Seq<u32>, k: u32) -> u32
    ensures { result ≡ number_at numbers.now k }
{
    let numbers = numbers.as_slice();
    if (k as usize) < numbers.len() {
        numbers[k as usize]
    } else {
        0
    }
}

impl WordsOf for Words {
    ghost number = { λ it c. number_at it.words c.word };

    fn get(&self, _resource: ResourceId, _sub: u32, word: u32) -> u32 {
        number(&self.words, word)
    }
}

/// A view of `.1` words of the resource from the word `.0` on.
type Part = Option<(u16, u16)>;

fn view(part: Part) -> Option<View>
    ensures { EndsBelow result }
{
    match part {
        None => None,
        Some((first, words)) => Some(View {
            class: Class::Uav,
            resource: ResourceId(4),
            sub: 2,
            first: first as u32,
            words: words as u32,
        }),
    }
}

/// What stands for b0: nothing, a word, or words of the resource.
#[derive(Clone, Copy, Debug)]
enum Constant {
    Unbound,
    Word(u32),
    Buffer(u16, u16),
}

fn source(constant: Constant) -> Source0
    ensures { EndsBelow (view_of result) }
{
    match constant {
        Constant::Unbound => Source0::None,
        Constant::Word(c) => Source0::Word(c),
        Constant::Buffer(first, words) => match view(Some((first, words))) {
            None => Source0::None,
            Some(view) => Source0::Buffer(view),
        },
    }
}

fn bound(t0: Part, t1: Part, u0: Part, b0: Constant) -> Bound
    ensures { AreViews result }
{
    Bound {
        t0: view(t0),
        t1: view(t1),
        u0: view(u0),
        b0: source(b0),
    }
}

/// The words of the resource after the stores.
fn keep(words: &mut Seq<u32>, stores: &[Store]) {
    for store in stores {
        let at = store.word as usize;
        let named = store.resource == ResourceId(4) && store.sub == 2;
        if named && at < words.len() {
            *words.at_mut(at) = store.value;
        }
    }
}

/// The words of the resource after a routine.
fn ran(
    alloc: Global,
    before: &[u32],
    routine: Routine,
    bound: &Bound,
    n: u32,
) -> Result<Seq<u32>, Memory>
    requires { AreViews bound.now }
{
    let memory = Words {
        words: Seq::from_slice(alloc, before)?,
    };
    let stores = effect(alloc, routine, bound, n, &memory)?;
    let Words { mut words } = memory;
    keep(&mut words, stores.as_slice());
    Ok(words)
}

/// Three words each of t0, t1 and u0.
const APART: [u32; 9] = [5, 6, 7, 2, 0, 9, 1, 1, 1];

/// What u0 holds after 0, 1, 3 and 4 invocations with the constant 3.
const COUNTS: [(Routine, [[u32; 3]; 4]); 8] = [
    (Routine::Fill, [[1, 1, 1], [3, 1, 1], [3, 3, 3], [3, 3, 3]]),
    (Routine::Move, [[1, 1, 1], [5, 1, 1], [5, 6, 7], [5, 6, 7]]),
    (Routine::Add, [[1, 1, 1], [7, 1, 1], [7, 6, 16], [7, 6, 16]]),
    (
        Routine::Mul,
        [[1, 1, 1], [15, 1, 1], [15, 18, 21], [15, 18, 21]],
    ),
    (
        Routine::Gather,
        [[1, 1, 1], [7, 1, 1], [7, 5, 0], [7, 5, 0]],
    ),
    (
        Routine::Scatter,
        [[1, 1, 1], [1, 1, 5], [6, 1, 5], [0, 1, 5]],
    ),
    (
        Routine::Sums,
        [[1, 1, 1], [5, 1, 1], [18, 1, 1], [18, 1, 1]],
    ),
    (
        Routine::Histogram,
        [[1, 1, 1], [1, 1, 2], [2, 2, 2], [3, 2, 2]],
    ),
];

fn counts(rt: &impl Abort, alloc: Global) -> Result<(), Memory> {
    let bound = bound(Some((0, 3)), Some((3, 3)), Some((6, 3)), Constant::Word(3));
    for (routine, rows) in COUNTS {
        for (n, row) in [0, 1, 3, 4].iter().zip(rows.iter()) {
            let after = ran(alloc, &APART, routine, &bound, *n)?;
            let (kept, written) = after.as_slice().split_at(after.len().min(6));
            assert!(rt; kept == &APART[..6]);
            assert!(rt; written == row.as_slice(), "{routine:?} {n}");
        }
    }
    Ok(())
}

#[test]
fn each_routine_with_none_one_all_and_one_more(rt: HostRuntime) -> Result<(), Fail> {
    counts(&rt, rt.alloc())?;
    Ok(())
}

/// A routine, its count, t0, t1, u0 and c, and the words before and after.
type Row = (Routine, u32, Part, Part, Part, u32, [u32; 9], [u32; 9]);

const ROWS: [Row; 15] = [
    // gather and scatter out of range, and a histogram that builds on its own stores
    (
        Routine::Gather,
        3,
        Some((0, 2)),
        Some((2, 3)),
        Some((5, 3)),
        0,
        [7, 8, 1, 9, 0, 4, 4, 4, 4],
        [7, 8, 1, 9, 0, 8, 0, 7, 4],
    ),
    (
        Routine::Scatter,
        3,
        Some((0, 3)),
        Some((3, 3)),
        Some((6, 3)),
        0,
        [5, 6, 7, 2, 2, 9, 0, 0, 0],
        [5, 6, 7, 2, 2, 9, 0, 0, 6],
    ),
    (
        Routine::Histogram,
        4,
        Some((0, 4)),
        None,
        Some((4, 3)),
        0,
        [0, 5, 2, 5, 0, 0, 0, 8, 8],
        [0, 5, 2, 5, 1, 0, 3, 8, 8],
    ),
    // views that alias: all else is read before the command
    (
        Routine::Move,
        3,
        Some((0, 3)),
        None,
        Some((1, 3)),
        0,
        [1, 2, 3, 4, 0, 0, 0, 0, 0],
        [1, 1, 2, 3, 0, 0, 0, 0, 0],
    ),
    (
        Routine::Scatter,
        3,
        Some((0, 3)),
        Some((3, 3)),
        Some((0, 3)),
        0,
        [5, 6, 7, 1, 2, 0, 0, 0, 0],
        [7, 5, 6, 1, 2, 0, 0, 0, 0],
    ),
    (
        Routine::Histogram,
        3,
        Some((0, 3)),
        None,
        Some((0, 3)),
        0,
        [0, 0, 1, 0, 0, 0, 0, 0, 0],
        [2, 1, 1, 0, 0, 0, 0, 0, 0],
    ),
    (
        Routine::Sums,
        3,
        Some((0, 3)),
        None,
        Some((0, 3)),
        0,
        [1, 2, 3, 0, 0, 0, 0, 0, 0],
        [6, 2, 3, 0, 0, 0, 0, 0, 0],
    ),
    // unbound registers, and a destination of no words
    (
        Routine::Gather,
        2,
        None,
        Some((0, 2)),
        Some((2, 2)),
        0,
        [1, 1, 5, 5, 0, 0, 0, 0, 0],
        [1, 1, 0, 0, 0, 0, 0, 0, 0],
    ),
    (
        Routine::Scatter,
        2,
        Some((0, 2)),
        None,
        Some((2, 2)),
        0,
        [7, 8, 5, 5, 0, 0, 0, 0, 0],
        [7, 8, 8, 5, 0, 0, 0, 0, 0],
    ),
    (
        Routine::Histogram,
        3,
        None,
        None,
        Some((0, 2)),
        0,
        [4, 4, 0, 0, 0, 0, 0, 0, 0],
        [7, 4, 0, 0, 0, 0, 0, 0, 0],
    ),
    (
        Routine::Fill,
        4,
        None,
        None,
        None,
        3,
        [1, 1, 1, 1, 1, 1, 1, 1, 1],
        [1, 1, 1, 1, 1, 1, 1, 1, 1],
    ),
    (
        Routine::Histogram,
        4,
        Some((0, 3)),
        None,
        Some((3, 0)),
        0,
        [1, 1, 1, 1, 1, 1, 1, 1, 1],
        [1, 1, 1, 1, 1, 1, 1, 1, 1],
    ),
    // sums, products and counts wrap
    (
        Routine::Add,
        1,
        Some((0, 1)),
        Some((1, 1)),
        Some((2, 1)),
        0,
        [u32::MAX, 3, 0, 0, 0, 0, 0, 0, 0],
        [u32::MAX, 3, 2, 0, 0, 0, 0, 0, 0],
    ),
    (
        Routine::Mul,
        1,
        Some((0, 1)),
        None,
        Some((1, 1)),
        3,
        [2_147_483_649, 0, 0, 0, 0, 0, 0, 0, 0],
        [2_147_483_649, 2_147_483_651, 0, 0, 0, 0, 0, 0, 0],
    ),
    (
        Routine::Histogram,
        1,
        None,
        None,
        Some((0, 1)),
        0,
        [u32::MAX, 0, 0, 0, 0, 0, 0, 0, 0],
        [0, 0, 0, 0, 0, 0, 0, 0, 0],
    ),
];

fn rows(rt: &impl Abort, alloc: Global) -> Result<(), Memory> {
    for (routine, n, t0, t1, u0, c, before, after) in ROWS {
        let found = ran(
            alloc,
            &before,
            routine,
            &bound(t0, t1, u0, Constant::Word(c)),
            n,
        )?;
        assert!(rt;
            found.as_slice() == after.as_slice(),
            "{routine:?} {n} {before:?}"
        );
    }
    Ok(())
}

#[test]
fn each_routine_by_its_rows(rt: HostRuntime) -> Result<(), Fail> {
    rows(&rt, rt.alloc())?;
    Ok(())
}

fn groups(rt: &impl Abort, alloc: Global) -> Result<(), Memory> {
    for (ones, n, sums) in [(65, 65, [64, 1]), (64, 65, [64, 0]), (70, 64, [64, 9])] {
        let mut before = Seq::new(alloc);
        for _one in 0..ones {
            before.push(1)?;
        }
        before.extend_from_slice(&[9, 9])?;
        let views = bound(Some((0, ones)), None, Some((ones, 2)), Constant::Unbound);
        let found = ran(alloc, before.as_slice(), Routine::Sums, &views, n)?;
        let (_, after) = found.as_slice().split_at((ones as usize).min(found.len()));
        assert!(rt; after == sums.as_slice(), "{ones} {n}");
    }
    Ok(())
}

#[test]
fn a_group_has_64_members(rt: HostRuntime) -> Result<(), Fail> {
    groups(&rt, rt.alloc())?;
    Ok(())
}

/// The constant register's word by what stands for it.
const CONSTANTS: [(Constant, u32); 4] = [
    (Constant::Unbound, 0),
    (Constant::Word(8), 8),
    (Constant::Buffer(1, 2), 6),
    (Constant::Buffer(1, 0), 0),
];

fn constants(rt: &impl Abort, alloc: Global) -> Result<(), Memory> {
    for (b0, word) in CONSTANTS {
        let views = bound(None, None, Some((6, 1)), b0);
        let found = ran(alloc, &APART, Routine::Fill, &views, 1)?;
        assert!(rt; found.get(6).copied() == Some(word), "{b0:?}");
    }
    Ok(())
}

#[test]
fn a_constant_is_a_word_or_the_first_of_a_buffer(rt: HostRuntime) -> Result<(), Fail> {
    constants(&rt, rt.alloc())?;
    Ok(())
}

/// How many words of t0, t1, b0 and u0 each routine touches with 0, 1, 3 and 70 invocations, where each
/// register has five words.
const TOUCHED: [(Routine, [[u32; 4]; 4]); 8] = [
    (
        Routine::Fill,
        [[0, 0, 0, 0], [0, 0, 1, 1], [0, 0, 1, 3], [0, 0, 1, 5]],
    ),
    (
        Routine::Move,
        [[0, 0, 0, 0], [1, 0, 0, 1], [3, 0, 0, 3], [5, 0, 0, 5]],
    ),
    (
        Routine::Add,
        [[0, 0, 0, 0], [1, 1, 0, 1], [3, 3, 0, 3], [5, 5, 0, 5]],
    ),
    (
        Routine::Mul,
        [[0, 0, 0, 0], [1, 0, 1, 1], [3, 0, 1, 3], [5, 0, 1, 5]],
    ),
    (
        Routine::Gather,
        [[0, 0, 0, 0], [5, 1, 0, 1], [5, 3, 0, 3], [5, 5, 0, 5]],
    ),
    (
        Routine::Scatter,
        [[0, 0, 0, 0], [1, 1, 0, 5], [3, 3, 0, 5], [5, 5, 0, 5]],
    ),
    (
        Routine::Sums,
        [[0, 0, 0, 0], [1, 0, 0, 1], [3, 0, 0, 1], [5, 0, 0, 2]],
    ),
    (
        Routine::Histogram,
        [[0, 0, 0, 0], [1, 0, 0, 5], [3, 0, 0, 5], [5, 0, 0, 5]],
    ),
];

/// How many words are touched from a word of the resource on, and with which access.
fn touched(touches: &[Touch], first: u32, access: Access) -> u32 {
    let mut words: u32 = 0;
    for touch in touches {
        let named = touch.resource == ResourceId(4) && touch.sub == 2 && touch.first == first;
        if named && touch.access == access {
            words = words.wrapping_add(touch.words);
        }
    }
    words
}

/// Whether each access reads and writes as its kind says.
fn are_of_kind(routine: Routine, touches: &[Touch]) -> bool {
    let updates = matches!(routine, Routine::Scatter | Routine::Histogram);
    touches.iter().all(|touch| {
        let writes = touch.access == Access::UNORDERED_ACCESS;
        touch.writes == writes && touch.reads == (updates || !writes) && touch.words > 0
    })
}

fn are_touched(rt: &impl Abort, alloc: Global) -> Result<(), Memory> {
    let bound = bound(
        Some((0, 5)),
        Some((10, 5)),
        Some((30, 5)),
        Constant::Buffer(20, 5),
    );
    for (routine, rows) in TOUCHED {
        for (n, row) in [0, 1, 3, 70].iter().zip(rows.iter()) {
            let touches = accesses(alloc, routine, &bound, *n)?;
            let found = [
                touched(touches.as_slice(), 0, Access::SHADER_RESOURCE),
                touched(touches.as_slice(), 10, Access::SHADER_RESOURCE),
                touched(touches.as_slice(), 20, Access::CONSTANT_BUFFER),
                touched(touches.as_slice(), 30, Access::UNORDERED_ACCESS),
            ];
            assert!(rt; found == *row, "{routine:?} {n}");
            assert!(rt; are_of_kind(routine, touches.as_slice()), "{routine:?} {n}");
        }
    }
    Ok(())
}

#[test]
fn each_routine_touches_its_columns(rt: HostRuntime) -> Result<(), Fail> {
    are_touched(&rt, rt.alloc())?;
    Ok(())
}

fn are_untouched(rt: &impl Abort, alloc: Global) -> Result<(), Memory> {
    let bound = bound(None, None, None, Constant::Word(3));
    for (routine, _) in TOUCHED {
        let touches = accesses(alloc, routine, &bound, 4)?;
        assert!(rt; touches.is_empty(), "{routine:?}");
    }
    Ok(())
}

#[test]
fn unbound_registers_have_no_accesses(rt: HostRuntime) -> Result<(), Fail> {
    are_untouched(&rt, rt.alloc())?;
    Ok(())
}
