//! What mappers send to reducers, and what the lanes of a run allow.
use crate::board::Knowing;
use crate::lane::LaneRule;
use hop_base::RunName;
use hop_cut::Cut;
use hop_run::Parcel;
use std::marker::PhantomData;

/// A message from a mapper to a reducer. `K` is a seat of the board.
#[derive(Drop)]
pub enum Message<K> {
    /// A part with its run.
    Parcel(Parcel),
    /// The attempt has ended, and sends no further part. The seat knows that it won or is revoked.
    Notice { split: u32, attempt: u8, known: K },
}

/// The lanes from mappers to reducers of a run.
pub struct MessageLane<N, K> {
    name: PhantomData<N>,
    seat: PhantomData<K>,
}

impl<N: RunName, K: Knowing> LaneRule<Message<K>> for MessageLane<N, K> {
    ghost use Rattle.std.specs.Prelude.{map};
    ghost use Rattle.hop_inner.specs.Messages.{AllowsAt, said};

    ghost allows = { λ key xs m. AllowsAt N.job N.records N.script N.settings N.tells key.reducer K.knows K.board key.board (map said xs) m };

    ghost capacity = { N.settings.lane };
}

/// The lanes from reducers to the writer of a run.
pub struct CutLane<N> {
    name: PhantomData<N>,
}

impl<N: RunName> LaneRule<Cut> for CutLane<N> {
    ghost use Rattle.std.specs.Prelude.{map};
    ghost use Rattle.hop_inner.specs.Messages.{AllowsCutAt, said_cut};

    ghost allows = { λ key xs c. AllowsCutAt N.job N.records N.script N.settings N.tells key.reducer (map said_cut xs) c };

    ghost capacity = { 16 };
}
