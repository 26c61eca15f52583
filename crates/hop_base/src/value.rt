//! Values and pairs, in their orders.
ghost use Rattle.std.specs.Prelude.{◌≡◌, ◌++◌, All, IfOk, OnOk};
ghost use Rattle.hop_base.specs.Order.{IsValid, IsValidPair};

use crate::blob::Blob;
use crate::memory::NoMemory;

/// A value: a number with a text. Values are ordered by number and then by text.
#[derive(Debug, Drop, PartialEq, Eq, PartialOrd, Ord)]
pub struct Val {
    pub n: u64,
    pub s: Blob,
}

/// A key with a value. Pairs are ordered by key and then by value.
#[derive(Debug, Drop, PartialEq, Eq, PartialOrd, Ord)]
pub struct Pair {
    pub key: Blob,
    pub val: Val,
}

impl Val {
    /// An equal value.
    pub fn copy(&self) -> Result<Val, NoMemory>
        ensures { IfOk result (λ val. val ≡ self.now) }
    {
        let n = self.n;
        let s = self.s.copy()?;
        Ok(Val { n, s })
    }

    /// A value is within the limits. It does nothing: proofs learn it so.
    pub fn known(&self)
        ensures { IsValid self.now }
    {
        let _n = self.n;
        let _text = self.s.as_slice();
    }
}

impl Pair {
    /// An equal pair.
    pub fn copy(&self) -> Result<Pair, NoMemory>
        ensures { IfOk result (λ pair. pair ≡ self.now) }
    {
        let key = self.key.copy()?;
        let val = self.val.copy()?;
        Ok(Pair { key, val })
    }

    /// Puts copies of the pairs behind those that are there. After `NoMemory` some of them may stand there.
    pub fn copy_all(pairs: &[Pair], to: &mut Vec<Pair>) -> Result<(), NoMemory>
        ensures { OnOk result (to.new.items ≡ to.old.items ++ pairs.now) }
    {
        for pair in pairs {
            to.push(pair.copy()?)?;
        }
        Ok(())
    }

    /// A pair is within the limits. It does nothing: proofs learn it so.
    pub fn known(&self)
        ensures { IsValidPair self.now }
    {
        let _key = self.key.as_slice();
        self.val.known();
    }

    /// All of these pairs are within the limits.
    pub fn all_known(pairs: &[Pair])
        ensures { All IsValidPair pairs.now }
    {
        for pair in pairs {
            pair.known();
        }
    }
}
