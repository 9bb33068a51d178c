//! The versions of root signatures.

/// The version of a root signature (D3D_ROOT_SIGNATURE_VERSION).
#[derive(Clone, Copy, Debug, PartialEq, Eq)]
pub enum Version {
    /// 1.0, which has no flags.
    V10,
    /// 1.1.
    V11,
}
