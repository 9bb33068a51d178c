//! Root signatures.

ghost use Rattle.std.specs.Prelude.{◌≡◌, ◌↔◌, IsTrue, IfOk, Err};
ghost use Rattle.std.specs.List.{list_any};
ghost use Rattle.std.specs.Option.{option_to_list};
ghost use Rattle.root_signature.specs.declared.signatures.BuildFault.TheVariants.{Memory as want_of_memory};
ghost use Rattle.root_signature.specs.Costs.{costs_too_much};
ghost use Rattle.root_signature.specs.Places.{places_of};
ghost use Rattle.root_signature.specs.Refusals.{is_refused_param, IsRefused};
ghost use Rattle.root_signature.specs.SignatureView.{IsSignature};

use crate::costs::cost;
use crate::params::Param;
use crate::places::{Place, first_place_in};
use crate::refusals::is_refused_param;
use crate::twice::covers_twice;
use crate::versions::Version;
use dx_base::{Class, Memory, Seq};
use std::alloc::Global;
use std::marker::Model;

/// A root signature (ID3D12RootSignature), none of those that are refused.
#[derive(Debug, Drop, PartialEq, Eq)]
pub struct Signature {
    version: Version,
    params: Seq<Param>,
}

impl Model for Signature {
    ghost use Rattle.root_signature.specs.SignatureView.{SignatureView, IsSignature};

    ghost Value = { SignatureView };

    ghost view = { λ it. record { version = it.version; params = it.params } };

    ghost inverse = { λ it. record { version = it.version; params = it.params } };

    ghost invariant = { λ it. IsSignature (record { version = it.version; params = it.params }) };
}

/// Why no signature is made.
#[derive(Clone, Copy, Debug, PartialEq, Eq)]
pub enum BuildFault {
    /// The signature is refused.
    InvalidArg,
    /// Memory was refused.
    Memory,
}

impl From<Memory> for BuildFault {
    ghost from_gives = { λ _ e. e ≡ want_of_memory };

    fn from(_error: Memory) -> BuildFault {
        BuildFault::Memory
    }
}

/// Whether the cost is above 64.
fn costs_too_much(params: &[Param]) -> bool
    ensures { result ≡ costs_too_much params.now }
{
    cost(params) > 64
}

/// Whether one of the parameters is refused.
fn has_refused_param(version: Version, params: &[Param]) -> bool
    ensures { result ≡ list_any (is_refused_param version) params.now }
{
    params.iter().any(|param| is_refused_param(version, param))
}

/// Whether a signature is refused.
fn is_refused(version: Version, params: &[Param]) -> bool
    ensures { IsTrue result ↔ IsRefused version params.now }
{
    costs_too_much(params) || has_refused_param(version, params) || covers_twice(params)
}

/// The same parameters.
fn copied_params(alloc: Global, params: &[Param]) -> Result<Seq<Param>, Memory>
    ensures { IfOk result (λ copy. copy ≡ params.now) }
{
    let mut copy = Seq::new(alloc);
    for param in params {
        copy.push(param.copied())?;
    }
    Ok(copy)
}

/// The signature of these parameters (D3D12SerializeVersionedRootSignature, ID3D12Device::CreateRootSignature).
/// InvalidArg exactly where one of these holds; `Memory` where memory was refused:
///
/// - the cost is above 64;
/// - a count is 0, or register plus count is above 64, where a root descriptor has a count of 1;
/// - a flag word is not 0 in version 1.0, has a bit that is no flag, has two of the three flags for data, has both
///   flags for descriptors, or has `DATA_STATIC` with `DESCRIPTORS_VOLATILE`;
/// - the flag word of a root descriptor has a flag for descriptors;
/// - two parameters or ranges cover one register of one class, where each constant covers one of class cbv.
pub fn build(alloc: Global, version: Version, params: &[Param]) -> Result<Signature, BuildFault>
    ensures made { IfOk result (λ made. made ≡ record { version = version; params = params.now }) }
    ensures refused { (result ≡ Err BuildFault.InvalidArg) ↔ IsRefused version params.now }
{
    if is_refused(version, params) {
        return Err(BuildFault::InvalidArg);
    }
    let params = copied_params(alloc, params)?;
    Ok(Signature { version, params })
}

impl Signature {
    /// The version that `build` was given.
    pub fn version(&self) -> Version
        ensures { result ≡ self.now.version }
    {
        self.version
    }

    /// The parameters that `build` was given.
    pub fn params(&self) -> &[Param]
        ensures value { result.now ≡ self.now.params }
        ensures valid { IsSignature self.now }
    {
        self.params.as_slice()
    }

    /// The one place of a register of a class. None exactly where no parameter covers it. It takes time that
    /// grows with the parameters and their ranges, and not with the registers of a range.
    pub fn place(&self, class: Class, register: u32) -> Option<Place>
        ensures { places_of self.now.params class register ≡ option_to_list result }
    {
        first_place_in(self.params.as_slice(), class, register)
    }
}
