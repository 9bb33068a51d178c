//! Names.

ghost use Rattle.std.specs.Prelude.{◌≡◌, codes, ◌&&◌, length, nat_le, Some, None, if◌then◌else◌, true, ◌≤◌};
ghost use Rattle.std.specs.Option.{option_map};
ghost use Rattle.std.specs.Str.{bytes_eq};
ghost use Rattle.std.proofs.Common.{rules};
ghost use Rattle.std.specs.Cmp.Rules.{comparing, hashing};
ghost use Rattle.std.specs.Hash as fed;
ghost use Rattle.trace_words.specs.Words.{is_name};

use crate::word::is_name;
use dx_base::NAME_BYTES;
use std::hash::{Hash, Hasher};
use std::marker::Model;

/// A name of an object: 1 to `NAME_BYTES` bytes of `a` to `z`, `0` to `9` and `_`, of which the first is a letter.
#[derive(Debug, Drop)]
pub struct Name {
    bytes: [u8; 32],
    len: u8,
}

impl Model for Name {
    ghost use Rattle.std.specs.Prelude.{ℕ, List, take, ◌≡◌, ◌≤◌, true};
    ghost use Rattle.trace_words.specs.Words.{is_name};

    ghost Value = { List ℕ };

    ghost view = { λ n. take n.len n.bytes };

    ghost invariant = { λ n. (n.len ≤ 32) × (is_name (take n.len n.bytes) ≡ true) };
}

impl Name {
    /// The name that a word writes, where it is spelled as a name and has at most `NAME_BYTES` bytes.
    pub fn new(word: &[u8]) -> Option<Name>
        ensures { result ≡ (if is_name word.now && nat_le (length word.now) 32 then Some word.now else None) }
    {
        if !is_name(word) || word.len() > NAME_BYTES {
            return None;
        }
        let mut bytes = [0; 32];
        bytes[..word.len()].copy_from_slice(word);
        Some(Name {
            bytes,
            len: word.len() as u8,
        })
    }

    /// The name `a`.
    #[tactic(auto, unfolding(crate::specs::Words::is_name))]
    pub fn a() -> Name
        ensures { result ≡ codes "a" }
    {
        let mut bytes = [0; 32];
        bytes[0] = b'a';
        Name { bytes, len: 1 }
    }

    /// A copy of the name.
    pub fn copied(&self) -> Name
        ensures { result ≡ self.now }
    {
        Name {
            bytes: self.bytes,
            len: self.len,
        }
    }

    /// The bytes of the name.
    pub fn as_bytes(&self) -> &[u8]
        ensures { result.now ≡ self.now }
    {
        &self.bytes[..self.len as usize]
    }
}

impl PartialEq for Name {
    ghost eq = { bytes_eq };

    ghost laws = { Prim.search (comparing, rules) };

    fn eq(&self, other: &Name) -> bool {
        self.as_bytes() == other.as_bytes()
    }
}

impl Eq for Name {
    ghost laws = { Prim.search (comparing, rules) };
}

impl Hash for Name {
    ghost hash_input = { fed.slice fed.u8 };

    ghost respects_eq = { Prim.search (hashing, rules) };

    fn hash<H: Hasher>(&self, state: &mut H) {
        self.as_bytes().hash(state);
    }
}
