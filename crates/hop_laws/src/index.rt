//! Where the pairs of keys may be.
ghost use Rattle.std.specs.Prelude.{◌≡◌, ◌≤◌, ◌∷◌, [], true, false, length, IfSome};
ghost use Rattle.hop_base.specs.Fields.{pair_of};
ghost use Rattle.hop_laws.specs.Numbers.{IsOneForBoth};
ghost use Rattle.hop_laws.specs.Stands.{StandsWith};

use crate::gathered::Gathered;
use crate::hashes::key_hash;
use crate::job::Job;
use hop_base::NoMemory;
use std::alloc::Global;

/// The places of pairs in lists that grow, by the hashes of their keys, as far as they are remembered: a slot for each
/// value of some bits of the hash, with the last place that was put there. It is only ever a guess. What is found is
/// compared, so that no hash and no list is wrong, and what is forgotten is only not joined at once: the combiner of
/// MapReduce (OSDI 2004), applied as the pairs come. So one index serves the lists of all partitions, and keys that
/// someone chose cost no more than others.
#[derive(Drop)]
pub struct Index {
    slots: Vec<Slot>,
    shift: u32,
}

#[derive(Clone, Copy)]
struct Slot {
    tag: u32,
    place: u32,
}

impl Index {
    /// No places, in 2 to the power `bits` slots of 8 bytes each.
    pub fn new(alloc: Global, bits: u32) -> Result<Index, NoMemory>
        requires { bits ≤ 32 }
    {
        let none = Slot {
            tag: 0,
            place: 0xffff_ffff,
        };
        let slots = vec![in alloc; none; 1 << bits]?;
        Ok(Index {
            slots,
            shift: 64 - bits,
        })
    }

    /// Joins a number to one of its key, where it finds one among the pairs and the job tells what the two come to. It tells whether
    /// that is so; if not, the pairs are as before, and the place behind them is put under the key: they are
    /// to take the pair next.
    pub fn join<J: Job>(&mut self, job: &J, pairs: &mut Gathered, key: &[u8], number: u64) -> bool
        requires { length key.now ≤ 131071 }

        // To combine and to reduce, the pairs stand for those before and the new one.
        ensures combined { result ≡ true → StandsWith (J.meaning job.now).combined pairs.old (pair_of key.now number [] ∷ []) pairs.new }
        ensures reduced { result ≡ true → StandsWith (J.meaning job.now).reduced pairs.old (pair_of key.now number [] ∷ []) pairs.new }
        ensures same { result ≡ false → pairs.new ≡ pairs.old }
    {
        let hash = key_hash(key);
        if let Some(place) = self.guess(hash) {
            if let Some(there) = pairs.number_at(place, key) {
                if let Some(both) = joined(job, there, number) {
                    pairs.set_number(place, both);
                    return true;
                }
            }
        }
        self.put(hash, pairs.len());
        false
    }

    // The place under a hash, perhaps that of another key.
    fn guess(&self, hash: u64) -> Option<usize> {
        match self.slots.get(hash.wrapping_shr(self.shift) as usize) {
            Some(slot) if slot.tag == tag(hash) => Some(slot.place as usize),
            _ => None,
        }
    }

    // Puts a place under a hash, in the stead of what was there.
    fn put(&mut self, hash: u64, place: usize) {
        if let Some(slot) = self.slots.get_mut(hash.wrapping_shr(self.shift) as usize) {
            if let Ok(place) = u32::try_from(place) {
                *slot = Slot {
                    tag: tag(hash),
                    place,
                };
            }
        }
    }
}

// What is remembered of a hash.
fn tag(hash: u64) -> u32 {
    (hash % 0x1_0000_0000) as u32
}

// What a job joins two numbers of a key to, in whichever order they came.
fn joined<J: Job>(job: &J, a: u64, b: u64) -> Option<u64>
    ensures { IfSome result (IsOneForBoth (J.meaning job.now).combined a b) }
{
    if a <= b {
        return job.joined(a, b);
    }
    job.joined(b, a)
}
