ghost use Rattle.std.specs.Prelude.{◌≡◌, ◌↔◌, ◌==◌, IsSome, IfSome, Some};
ghost use Rattle.std.proofs.Common.{rules};
ghost use Rattle.std.specs.Cmp.Lexicographic.{pointwise};
ghost use Rattle.std.specs.Cmp.Rules.{comparing};
ghost use Rattle.kl_states.specs.Names.{IsNonce};

use crate::name::{MAX_LEN, Name};
use std::fmt;
use std::marker::Model;

/// What an agent's quote has to carry: 1 to 64 ASCII letters and digits.
#[derive(Clone, Copy, Debug)]
pub struct Nonce {
    name: Name,
}

impl Model for Nonce {
    ghost use Rattle.std.specs.Prelude.{ℕ, List};
    ghost use Rattle.kl_states.specs.Names.{IsNonce};

    ghost Value = { List ℕ };

    ghost view = { λ nonce. nonce.name };

    ghost invariant = { λ nonce. IsNonce nonce.name };

    ghost inverse = { λ bytes. record { name = bytes } };
}

impl Nonce {
    /// The nonce of these bytes, or None where they are none.
    pub fn from_bytes(bytes: &[u8]) -> Option<Nonce>
        ensures found { IsSome result ↔ IsNonce bytes.now }
        ensures value { IfSome result (λ nonce. nonce ≡ bytes.now) }
    {
        if bytes.is_empty()
            || bytes.len() > MAX_LEN
            || !bytes.iter().all(|byte| byte.is_ascii_alphanumeric())
        {
            return None;
        }
        Some(Nonce {
            name: Name::new(bytes),
        })
    }

    /// The nonce as text.
    pub fn as_str(&self) -> &str
        ensures value { result.now ≡ self.now }
        ensures form { IsNonce self.now }
    {
        self.name.as_str()
    }
}

impl fmt::Display for Nonce {
    ghost output = { λ nonce. Some nonce };

    fn fmt<W: fmt::Write>(&self, f: &mut fmt::Formatter<W>) -> fmt::Result {
        f.write_str(self.as_str())
    }
}

impl PartialEq for Nonce {
    ghost eq = { pointwise ◌==◌ };

    ghost laws = { Prim.search (comparing, rules) };

    fn eq(&self, other: &Nonce) -> bool {
        self.as_str() == other.as_str()
    }
}

impl Eq for Nonce {
    ghost laws = { Prim.search (comparing, rules) };
}
