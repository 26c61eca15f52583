//! Laws of chains. The functions do nothing.
ghost use Rattle.std.specs.Prelude.{◌≡◌, ℕ, List, All};
ghost use Rattle.hop_base.specs.Meaning.{Meaning};
ghost use Rattle.hop_chain.specs.Chain.{HasShortRecords, IsTextOf, chained_texts, later_texts};

use hop_laws::Job;

/// Texts of a job, each over some records of an input, can be read by a later job: joined they have no record of more than
/// 65,556 bytes.
pub fn texts_are_short<J: Job>(job: &J)
    ensures { (texts : List (List ℕ)) → All (IsTextOf (J.meaning job.now)) texts → HasShortRecords 65556 texts }
{
    let _ = job;
}

/// Where no record of the texts has more than 65,556 bytes, a chain leaves nothing out: each later job is the blocking job over all
/// records of the texts of the one before it. So it is over texts of a job, each over some records of an input.
pub fn nothing_is_left_out<J: Job>(job: &J)
    ensures short { (texts : List (List ℕ)) (meanings : List Meaning) (r : ℕ) → HasShortRecords 65556 texts → chained_texts meanings texts r ≡ later_texts meanings texts r }
    ensures of_a_job { (texts : List (List ℕ)) (meanings : List Meaning) (r : ℕ) → All (IsTextOf (J.meaning job.now)) texts → chained_texts meanings texts r ≡ later_texts meanings texts r }
{
    texts_are_short(job);
}
