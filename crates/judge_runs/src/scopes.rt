//! The scope of an execute, word by word.

use crate::happenings::{Piece, What};
use crate::known::{Doer, Known};
use crate::rules::least;
use crate::words::{Doing, Stretch, Sub, Word};
use d3d_judge::Rule;
use dx_base::{Home, Memory};
use dx_flags::{Kind, Layout, Part, Sync};
use enhanced_barriers::{Barrier, Scope as Named};
use std::alloc::Global;

const PARTS: [Part; 3] = [Part::Copy, Part::Compute, Part::Clear];

const KINDS: [Kind; 5] = [
    Kind::UnorderedAccess,
    Kind::ShaderResource,
    Kind::ConstantBuffer,
    Kind::CopySource,
    Kind::CopyDest,
];

/// Something that was done to a word.
#[derive(Clone, Copy)]
pub(crate) struct Done {
    pub doer: Doer,
    pub word: Word,
    pub doing: Doing,
}

/// An access of a word, or its layout change, earlier in the scope. A change has no pair of its own.
#[derive(Clone, Copy)]
struct Earlier {
    word: Word,
    doing: Doing,
    own: Option<(Part, Kind)>,
}

/// The earlier access of that place in the scope's list is covered for a pair.
#[derive(Clone, Copy, PartialEq, Eq)]
struct Covered {
    earlier: usize,
    part: Part,
    kind: Kind,
}

/// A scope while its commands go in order.
#[derive(Drop)]
pub(crate) struct Scope {
    doer: Doer,
    /// What the scope knows.
    known: Known,
    earlier: Vec<Earlier>,
    covered: Vec<Covered>,
    /// What it did, in order.
    pub(crate) done: Vec<Done>,
    pub(crate) subs: Vec<Sub>,
    pub(crate) lost: Vec<Word>,
    /// The least rule broken at the first command that breaks one.
    pub(crate) broken: Option<Rule>,
}

/// Whether the barrier concerns a word.
fn concerns(barrier: &Barrier, word: Word) -> bool {
    match barrier.scope {
        Named::Global => true,
        Named::Buffer(id) => id.0 == word.resource,
        Named::Texture(id, None) => id.0 == word.resource,
        Named::Texture(id, Some(sub)) => id.0 == word.resource && sub == word.sub,
    }
}

/// Whether a barrier changes the layout of what it names.
fn changes(barrier: &Barrier) -> bool {
    barrier.layout_before != barrier.layout_after || barrier.layout_before == Layout::Undefined
}

/// Whether a barrier names a subresource of a texture.
fn names(barrier: &Barrier, sub: &Sub) -> bool {
    match barrier.scope {
        Named::Texture(id, None) => id.0 == sub.resource,
        Named::Texture(id, Some(one)) => id.0 == sub.resource && one == sub.sub,
        _ => false,
    }
}

/// Whether a buffer or a texture takes a kind of access as it stands.
fn takes(sub: &Sub, kind: Kind) -> bool {
    match sub.home {
        Home::Upload => kind != Kind::CopyDest && kind != Kind::UnorderedAccess,
        Home::Readback => kind == Kind::CopyDest,
        Home::Legacy => true,
        Home::Enhanced => !sub.texture || sub.layout.allows(kind, sub.shared),
    }
}

impl Scope {
    /// A scope before its first command.
    pub(crate) fn new(
        alloc: Global,
        doer: Doer,
        known: Known,
        subs: Vec<Sub>,
        lost: Vec<Word>,
    ) -> Scope {
        Scope {
            doer,
            known,
            earlier: Vec::new(alloc),
            covered: Vec::new(alloc),
            done: Vec::new(alloc),
            subs,
            lost,
            broken: None,
        }
    }

    fn breaks(&mut self, rule: Rule) {
        self.broken = least(self.broken, rule);
    }

    /// Takes the parts of commands in order, up to the end of the first command that breaks a rule.
    pub(crate) fn take(&mut self, pieces: &[Piece], history: &[Done]) -> Result<(), Memory> {
        let mut place = 0;
        for piece in pieces {
            if piece.place != place && self.broken.is_some() {
                return Ok(());
            }
            place = piece.place;
            self.take_one(piece.what, history)?;
        }
        Ok(())
    }

    fn take_one(&mut self, what: What, history: &[Done]) -> Result<(), Memory> {
        match what {
            What::Reads(part, kind, stretch) => {
                self.access(Doing::Read, part, kind, stretch, history)
            }
            What::Writes(part, kind, stretch) => {
                self.access(Doing::Write, part, kind, stretch, history)
            }
            What::Bars(barrier) => self.bar(&barrier, history),
        }
    }

    /// An access of words by a command.
    fn access(
        &mut self,
        doing: Doing,
        part: Part,
        kind: Kind,
        stretch: Stretch,
        history: &[Done],
    ) -> Result<(), Memory> {
        for at in 0..stretch.words {
            self.access_word(doing, part, kind, stretch.word(at), history)?;
        }
        Ok(())
    }

    fn access_word(
        &mut self,
        doing: Doing,
        part: Part,
        kind: Kind,
        word: Word,
        history: &[Done],
    ) -> Result<(), Memory> {
        self.touch(doing, word, history)?;
        if self.is_uncovered(doing, part, kind, word) {
            self.breaks(Rule::B2);
        }
        if !self.is_taken(kind, word) {
            self.breaks(Rule::B3);
        }
        if doing == Doing::Read && self.lost.contains(&word) {
            self.breaks(Rule::B12);
        }
        if doing == Doing::Write {
            self.lost.retain(|other| *other != word);
        }
        let own = Some((part, kind));
        self.earlier.push(Earlier { word, doing, own })?;
        Ok(())
    }

    /// B1 and B10: what came before in the history and needs an order is known.
    fn touch(&mut self, doing: Doing, word: Word, history: &[Done]) -> Result<(), Memory> {
        for other in history {
            if other.word == word && other.doing.meets(doing) && !self.known.knows(other.doer) {
                match other.doer {
                    Doer::Operation(_, _) => self.breaks(Rule::B1),
                    Doer::Call(_, _) => self.breaks(Rule::B10),
                }
            }
        }
        let doer = self.doer;
        self.done.push(Done { doer, word, doing })?;
        Ok(())
    }

    /// B2: some earlier access of the word, one of the two a write, is not covered for the pair.
    fn is_uncovered(&self, doing: Doing, part: Part, kind: Kind, word: Word) -> bool {
        let mut uncovered = false;
        for (at, other) in self.earlier.iter().enumerate() {
            let pair = Covered {
                earlier: at,
                part,
                kind,
            };
            if other.word == word && other.doing.meets(doing) && !self.covered.contains(&pair) {
                uncovered = true;
            }
        }
        uncovered
    }

    /// Whether the word's subresource takes a kind of access as it stands.
    fn is_taken(&self, kind: Kind, word: Word) -> bool {
        let mut taken = true;
        for sub in &self.subs {
            if sub.resource == word.resource && sub.sub == word.sub && !takes(sub, kind) {
                taken = false;
            }
        }
        taken
    }

    /// A barrier.
    fn bar(&mut self, barrier: &Barrier, history: &[Done]) -> Result<(), Memory> {
        for at in 0..self.subs.len() {
            let sub = self.subs.get(at).copied();
            if let Some(sub) = sub {
                if names(barrier, &sub) {
                    self.name(barrier, &sub, history)?;
                }
            }
        }
        if barrier.sync_before == Sync::NONE {
            self.use_nothing_before(barrier);
        }
        self.cover(barrier)?;
        if changes(barrier) {
            self.change(barrier)?;
        }
        Ok(())
    }

    /// The rules at a subresource that a barrier names.
    fn name(&mut self, barrier: &Barrier, sub: &Sub, history: &[Done]) -> Result<(), Memory> {
        let doing = if changes(barrier) {
            Doing::Change
        } else {
            Doing::Name
        };
        let whole = sub.whole();
        for at in 0..whole.words {
            self.touch(doing, whole.word(at), history)?;
        }
        if barrier.layout_before != Layout::Undefined && barrier.layout_before != sub.layout {
            self.breaks(Rule::B4);
        }
        if doing == Doing::Change && self.is_unreached(barrier, sub) {
            self.breaks(Rule::B2);
        }
        Ok(())
    }

    /// B2 of a layout change: some earlier access of the subresource is not reached by the barrier.
    fn is_unreached(&self, barrier: &Barrier, sub: &Sub) -> bool {
        let mut unreached = false;
        for (at, other) in self.earlier.iter().enumerate() {
            if other.word.resource == sub.resource
                && other.word.sub == sub.sub
                && !self.reaches(barrier, at, other.own)
            {
                unreached = true;
            }
        }
        unreached
    }

    /// The before side of a barrier has an earlier access's own pair, or that access is covered for a pair whose
    /// part is in the sync before.
    fn reaches(&self, barrier: &Barrier, earlier: usize, own: Option<(Part, Kind)>) -> bool {
        let by_own = match own {
            Some((part, kind)) => {
                barrier.sync_before.has_part(part) && barrier.access_before.has_kind(kind)
            }
            None => false,
        };
        let mut reached = by_own;
        for pair in &self.covered {
            if pair.earlier == earlier && barrier.sync_before.has_part(pair.part) {
                reached = true;
            }
        }
        reached
    }

    /// B5: the scope used a word before that a barrier with nothing before it concerns.
    fn use_nothing_before(&mut self, barrier: &Barrier) {
        let mut used = false;
        for other in &self.earlier {
            if concerns(barrier, other.word) {
                used = true;
            }
        }
        if used {
            self.breaks(Rule::B5);
        }
    }

    /// A barrier adds the pairs of its after side to what it reaches.
    fn cover(&mut self, barrier: &Barrier) -> Result<(), Memory> {
        for at in 0..self.earlier.len() {
            let other = self.earlier.get(at).copied();
            if let Some(other) = other {
                if concerns(barrier, other.word) && self.reaches(barrier, at, other.own) {
                    self.add_pairs(barrier, at)?;
                }
            }
        }
        Ok(())
    }

    /// An earlier access is covered for the pairs of a barrier's after side.
    fn add_pairs(&mut self, barrier: &Barrier, earlier: usize) -> Result<(), Memory> {
        for part in &PARTS {
            for kind in &KINDS {
                if barrier.sync_after.has_part(*part) && barrier.access_after.has_kind(*kind) {
                    self.covered.push(Covered {
                        earlier,
                        part: *part,
                        kind: *kind,
                    })?;
                }
            }
        }
        Ok(())
    }

    /// The layouts of what a barrier names change. A layout before of UNDEFINED makes the words lost.
    fn change(&mut self, barrier: &Barrier) -> Result<(), Memory> {
        for at in 0..self.subs.len() {
            let sub = self.subs.get(at).copied();
            if let Some(sub) = sub {
                if names(barrier, &sub) {
                    self.change_sub(barrier, &sub)?;
                }
            }
            if let Some(sub) = self.subs.get_mut(at) {
                if names(barrier, sub) {
                    sub.layout = barrier.layout_after;
                }
            }
        }
        Ok(())
    }

    fn change_sub(&mut self, barrier: &Barrier, sub: &Sub) -> Result<(), Memory> {
        let whole = sub.whole();
        for at in 0..whole.words {
            let word = whole.word(at);
            let earlier = self.earlier.len();
            self.earlier.push(Earlier {
                word,
                doing: Doing::Change,
                own: None,
            })?;
            self.add_pairs(barrier, earlier)?;
            if barrier.layout_before == Layout::Undefined {
                self.lost.push(word)?;
            }
        }
        Ok(())
    }
}
