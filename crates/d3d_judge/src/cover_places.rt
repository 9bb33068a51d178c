//! Which accesses of a scope the barriers so far cover, by one place for each pair.

ghost use Rattle.std.specs.Prelude.{◌≡◌, ◌&&◌, cond, max};
ghost use Rattle.std.specs.Option.{option_map};
ghost use Rattle.dx_flags.specs.declared.atoms.Kind.{Kind};
ghost use Rattle.dx_flags.specs.Kinds.{has_kind};
ghost use Rattle.dx_flags.specs.Parts.{has_part};
ghost use Rattle.enhanced_barriers.specs.Cover.{before_has};
ghost use Rattle.d3d_judge.specs.Commands.{Pair};
ghost use Rattle.d3d_judge.specs.Scopes.{own_before};
ghost use Rattle.d3d_judge.specs.Thresholds.{all_pairs, lifted, most_met, reached_before};
ghost use Rattle.d3d_judge.specs.CoverPlaces.{most_of, place_of_kind, place_of_pair, work_pair_of};

use dx_flags::{Access, Kind, Part};
use enhanced_barriers::Barrier;

/// A part of the work of queues, and a kind of access that it makes.
#[derive(Clone, Copy)]
pub(crate) struct WorkPair {
    pub part: Part,
    pub kind: Kind,
}

/// For each kind of access a place in a scope.
#[derive(Clone, Copy)]
pub(crate) struct KindPlaces {
    unordered_access: u64,
    shader_resource: u64,
    constant_buffer: u64,
    copy_source: u64,
    copy_dest: u64,
}

/// Of the accesses of one own pair in one subresource, for each pair the place before which they are covered
/// for it.
#[derive(Clone, Copy)]
pub(crate) struct CoverPlaces {
    copy: KindPlaces,
    compute: KindPlaces,
    clear: KindPlaces,
}

impl KindPlaces {
    /// The greatest place.
    fn most(self) -> u64
        ensures { result ≡ most_of self }
    {
        let copies = self.copy_source.max(self.copy_dest);
        let views = self.constant_buffer.max(copies);
        self.unordered_access.max(self.shader_resource.max(views))
    }

    /// The greatest place where a test holds, and otherwise 0.
    fn most_if(self, counts: bool) -> u64
        ensures { result ≡ cond counts (most_of self) 0 }
    {
        if counts { self.most() } else { 0 }
    }

    /// Lifts the places of the kinds of an access to a place.
    #[tactic(auto, using(crate::proofs::CoverPlaces::lifted_kinds))]
    fn lifted(self, access: Access, place: u64) -> KindPlaces
        ensures { (k : Kind) → place_of_kind result k ≡ cond (has_kind k access) (max (place_of_kind self k) place) (place_of_kind self k) }
    {
        KindPlaces {
            unordered_access: lifted_if(
                self.unordered_access,
                access.has_kind(Kind::UnorderedAccess),
                place,
            ),
            shader_resource: lifted_if(
                self.shader_resource,
                access.has_kind(Kind::ShaderResource),
                place,
            ),
            constant_buffer: lifted_if(
                self.constant_buffer,
                access.has_kind(Kind::ConstantBuffer),
                place,
            ),
            copy_source: lifted_if(self.copy_source, access.has_kind(Kind::CopySource), place),
            copy_dest: lifted_if(self.copy_dest, access.has_kind(Kind::CopyDest), place),
        }
    }

    /// The same where a test holds.
    fn lifted_where(self, applies: bool, access: Access, place: u64) -> KindPlaces
        ensures { (k : Kind) → place_of_kind result k ≡ cond (applies && has_kind k access) (max (place_of_kind self k) place) (place_of_kind self k) }
    {
        if applies {
            self.lifted(access, place)
        } else {
            self
        }
    }
}

impl CoverPlaces {
    /// The greatest place of the pairs whose part is in the sync before of a barrier.
    #[tactic(auto, using(crate::proofs::CoverPlaces::most_met_is))]
    fn most_met(self, barrier: &Barrier) -> u64
        ensures { result ≡ most_met barrier.now (place_of_pair self) all_pairs }
    {
        let copies = self.copy.most_if(barrier.sync_before.has_part(Part::Copy));
        let computes = self
            .compute
            .most_if(barrier.sync_before.has_part(Part::Compute));
        let clears = self
            .clear
            .most_if(barrier.sync_before.has_part(Part::Clear));
        copies.max(computes.max(clears))
    }

    /// The accesses that a barrier at a place reaches are those before the result. `own` is their own pair; a
    /// layout change has none.
    pub fn reached_before(self, place: u64, barrier: &Barrier, own: Option<WorkPair>) -> u64
        ensures { result ≡ reached_before place barrier.now (option_map work_pair_of own) (place_of_pair self) }
    {
        if has_before(barrier, own) {
            place
        } else {
            self.most_met(barrier)
        }
    }

    /// The places after a barrier at a place, which concerns the words or does not.
    pub fn lifted(
        self,
        concerned: bool,
        place: u64,
        barrier: &Barrier,
        own: Option<WorkPair>,
    ) -> CoverPlaces
        ensures { (y : Pair) → place_of_pair result y ≡ lifted concerned place barrier.now (option_map work_pair_of own) (place_of_pair self) y }
    {
        let reached = self.reached_before(place, barrier, own);
        let access = barrier.access_after;
        let copies = applies(concerned, barrier, Part::Copy);
        let computes = applies(concerned, barrier, Part::Compute);
        let clears = applies(concerned, barrier, Part::Clear);
        CoverPlaces {
            copy: self.copy.lifted_where(copies, access, reached),
            compute: self.compute.lifted_where(computes, access, reached),
            clear: self.clear.lifted_where(clears, access, reached),
        }
    }
}

/// The greater place where a test holds.
fn lifted_if(before: u64, lifts: bool, place: u64) -> u64
    ensures { result ≡ cond lifts (max before place) before }
{
    if lifts { before.max(place) } else { before }
}

/// Whether a barrier concerns the words and has a part in its sync after.
fn applies(concerned: bool, barrier: &Barrier, part: Part) -> bool
    ensures { result ≡ (concerned && has_part part barrier.now.sync_after) }
{
    concerned && barrier.sync_after.has_part(part)
}

/// Whether the before side of a barrier has the own pair of an access.
fn has_before(barrier: &Barrier, own: Option<WorkPair>) -> bool
    ensures { result ≡ own_before barrier.now (option_map work_pair_of own) }
{
    match own {
        None => false,
        Some(pair) => has_pair_before(barrier, pair),
    }
}

/// Whether the before side of a barrier has a pair.
#[tactic(auto, unfolding(enhanced_barriers::specs::Cover::before_has))]
fn has_pair_before(barrier: &Barrier, pair: WorkPair) -> bool
    ensures { result ≡ before_has barrier.now pair.part pair.kind }
{
    barrier.sync_before.has_part(pair.part) && barrier.access_before.has_kind(pair.kind)
}
