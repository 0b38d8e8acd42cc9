//! Names of files.
ghost use Rattle.std.specs.Prelude.{◌≡◌, ◌↔◌, ◌≤◌, length, IsTrue, IfSome, IsSome};
ghost use Rattle.std.specs.List.{list_all};
ghost use Rattle.split_types.specs.Names.{padded, is_name, is_name_byte};

use std::marker::Model;

/// A name: 1 to 32 bytes out of `a` to `z`, `0` to `9`, `.`, `_` and `-`.
#[derive(Clone, Copy, Debug)]
pub struct Name {
    bytes: [u8; 32],
    len: u8,
}

impl Model for Name {
    ghost use Rattle.std.specs.Prelude.{ℕ, List, length, take};
    ghost use Rattle.split_types.specs.Names.{padded, IsPadded};

    ghost Value = { List ℕ };

    ghost use Rattle.split_types.specs.NameFields.{fields_back};

    ghost view = { λ n. take n.len n.bytes };

    ghost invariant = { λ n. IsPadded n.bytes n.len };

    ghost inverse = { λ v. record { bytes = padded v; len = length v } };

    ghost inverse_ok = { λ a h. fields_back a h };
}

/// The bytes, filled up with zeros.
fn padded_bytes(bytes: &[u8]) -> [u8; 32]
    requires { length bytes.now ≤ 32 }
    ensures { result ≡ padded bytes.now }
{
    let mut all = [0u8; 32];
    all[..bytes.len()].copy_from_slice(bytes);
    all
}

/// Whether a byte may stand in a name.
fn is_name_byte(byte: u8) -> bool
    ensures { result ≡ is_name_byte byte }
{
    byte.is_ascii_lowercase() || byte.is_ascii_digit() || matches!(byte, b'.' | b'_' | b'-')
}

/// Whether all bytes may stand in a name.
fn are_name_bytes(bytes: &[u8]) -> bool
    ensures { result ≡ list_all is_name_byte bytes.now }
{
    bytes.iter().all(|byte| is_name_byte(*byte))
}

/// Whether the bytes are a name.
fn is_name(bytes: &[u8]) -> bool
    ensures { result ≡ is_name bytes.now }
{
    !bytes.is_empty() && bytes.len() <= 32 && are_name_bytes(bytes)
}

impl Name {
    /// The name of these bytes, or none where they are no name.
    pub fn new(bytes: &[u8]) -> Option<Name>
        ensures exact { IsSome result ↔ IsTrue (is_name bytes.now) }
        ensures same { IfSome result (λ name. name ≡ bytes.now) }
    {
        if is_name(bytes) {
            Some(Name {
                bytes: padded_bytes(bytes),
                len: bytes.len() as u8,
            })
        } else {
            None
        }
    }

    /// How many bytes the name has: 1 to 32, and all may stand in a name.
    pub fn len(&self) -> usize
        ensures len { result ≡ length self.now }
        ensures most { result ≤ 32 }
        ensures named { IsTrue (is_name self.now) }
    {
        usize::from(self.len)
    }

    /// The bytes of the name.
    pub fn as_slice(&self) -> &[u8]
        ensures { result.now ≡ self.now }
    {
        &self.bytes[..usize::from(self.len)]
    }
}
