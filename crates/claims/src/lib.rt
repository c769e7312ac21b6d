//! Keys that are claimed, in proofs alone: a registry knows the number with which each key is
//! claimed, and only who has a key's claim can change it. Neither has bytes.
#![tactic(auto)]

ghost use Rattle.std.specs.Prelude.{◌≡◌, ℕ, List, [], Option, Some, None, IfSome};
ghost use Rattle.std.specs.Coded.{coded_ℕ, coded_list, coded_option};
ghost use Rattle.claims.specs.Claims.{claim_of, put, changed, put_changed};
ghost use Rattle.claims.specs.Owned.{registry_owns, claim_owns};

use std::marker::{Model, PhantomData};

/// Knows of each key whether it is claimed, and with which number.
pub struct Registry {
    marker: PhantomData<()>,
    pub ghost name: { ℕ },
    pub ghost claims: { List (Option ℕ) } by { coded_list (coded_option coded_ℕ) },
}

impl Model for Registry {
    ghost also_owns = { λ r. registry_owns r.name r.claims };
}

/// The right to a key of the registry of this name, and to change its number: no other claim has
/// the key. If its number is `None`, it is a claim of nothing.
pub struct Claim {
    marker: PhantomData<()>,
    pub ghost registry: { ℕ },
    pub ghost key: { ℕ },
    pub ghost number: { Option ℕ } by { coded_option coded_ℕ },
}

impl Model for Claim {
    ghost also_owns = { λ c. claim_owns c.registry c.key c.number };
}

impl Registry {
    /// A registry where no key is claimed.
    #[inline(always)]
    pub fn new() -> Registry
        ensures { result.claims ≡ [] }
    {
        Registry {
            marker: PhantomData,
        }
    }

    /// Claims a key that isn't claimed.
    #[inline(always)]
    pub fn claim(&mut self, key: usize, number: u64) -> Claim
        requires unclaimed { claim_of self.old.claims key ≡ None }
        ensures registry { (self.new.name ≡ self.old.name)
            × (self.new.claims ≡ put self.old.claims key (Some number)) }
        ensures claim { (result.registry ≡ self.old.name) × (result.key ≡ key)
            × (result.number ≡ Some number) }
    {
        Claim {
            marker: PhantomData,
        }
    }

    /// Changes the number of a claim, or gives the claim up (`None`). The registry knew its number.
    #[inline(always)]
    pub fn set(&mut self, claim: &mut Claim, number: Option<u64>)
        requires { claim.old.registry ≡ self.old.name }
        ensures has { IfSome claim.old.number
            (λ number. claim_of self.old.claims claim.old.key ≡ Some number) }
        ensures registry { (self.new.name ≡ self.old.name)
            × (self.new.claims
            ≡ put_changed self.old.claims claim.old.key claim.old.number number) }
        ensures claim { (claim.new.registry ≡ claim.old.registry) × (claim.new.key ≡ claim.old.key)
            × (claim.new.number ≡ changed claim.old.number number) }
    {}
}

impl Claim {
    /// A claim of nothing, under the same key of the same registry.
    #[inline(always)]
    pub fn none(&self) -> Claim
        ensures { (result.registry ≡ self.now.registry) × (result.key ≡ self.now.key)
            × (result.number ≡ None) }
    {
        Claim {
            marker: PhantomData,
        }
    }
}

impl Drop for Registry {
    fn drop(self) {
        let Self { marker: _ } = self;
    }
}

impl Drop for Claim {
    fn drop(self) {
        let Self { marker: _ } = self;
    }
}
