//! The later jobs of a chain, as a name.
use std::marker::Brand;

/// What is fixed about a chain beside its run: the jobs after the first, at most three. Contracts know them by the name, so whatever goes on over any writer, its later jobs stay the same.
pub trait ChainName {
    ghost use Rattle.std.specs.Prelude.{List};
    ghost use Rattle.hop_base.specs.Meaning.{Meaning};

    /// The later jobs, in order, as the meanings of their calls.
    ghost later: { List Meaning };
}

/// A run of one job: no later jobs.
impl ChainName for Brand {
    ghost use Rattle.std.specs.Prelude.{[]};

    ghost later = { [] };
}
