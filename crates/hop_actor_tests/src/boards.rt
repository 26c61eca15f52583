//! A board of one thread.
ghost use Rattle.std.specs.Prelude.{◌≡◌, ◌<◌, ◌+◌, ℕ, [], IfOk};
ghost use Rattle.hop_machine.specs.declared.words.Who.TheVariants as actor;
ghost use Rattle.hop_machine.specs.step.Steps.{Drew};
ghost use Rattle.hop_actor_tests.specs.Seats.{seat, drawn, committed, LostTo};

use hop_base::RunName;
use hop_board::PlainBoard;
use hop_inner::Board;
use hop_machine::Verdict;
use std::alloc::Global;
use std::test::Fail;

// Two splits of one record each, of each of which two attempts may be begun.
pub(crate) struct TwoSplits;

impl RunName for TwoSplits {
    ghost use Rattle.std.specs.Prelude.{true, None, []};
    ghost use Rattle.hop_jobs.specs.Wc.{wc_meaning};
    ghost use Rattle.hop_base.specs.Run.{no_lines};
    ghost use Rattle.hop_actor_tests.specs.TwoSplits.{two_records, two_attempts};

    ghost job = { wc_meaning };

    ghost records = { two_records };

    ghost script = { no_lines };

    ghost settings = { two_attempts };

    ghost tells = { true };

    ghost folder = { None };

    ghost spills = { [] };
}

// The board of that run.
pub(crate) fn board(alloc: Global) -> Result<PlainBoard<TwoSplits>, Fail>
    ensures calls { IfOk result (λ b. b.calls ≡ []) }
    ensures who { IfOk result (λ b. b.who ≡ actor.Mapper 0) }
{
    Ok(PlainBoard::new(alloc, 2)?)
}

// A split that was not given before.
fn ask(board: &mut PlainBoard<TwoSplits>) -> Option<u32>
    requires who { board.old.who ≡ actor.Mapper 0 }
    requires few { (seat board.old).calls < 8 }
    ensures who { board.new.who ≡ actor.Mapper 0 }
    ensures calls { (seat board.new).calls ≡ (seat board.old).calls + 1 }
{
    board.next_split()
}

// A number of split 0.
fn draw(board: &mut PlainBoard<TwoSplits>) -> u64
    requires who { board.old.who ≡ actor.Mapper 0 }
    requires few { (seat board.old).calls < 8 }
    ensures who { board.new.who ≡ actor.Mapper 0 }
    ensures seat { seat board.new ≡ drawn result (seat board.old) }
{
    board.draw(0)
}

// A commit of an attempt of split 0.
fn commit(board: &mut PlainBoard<TwoSplits>, attempt: u8) -> Verdict
    requires who { board.old.who ≡ actor.Mapper 0 }
    requires below { attempt < 2 }
    requires drew { Drew (seat board.old) 0 attempt }
    requires alive { (seat board.old).revoked ≡ [] }
    ensures who { board.new.who ≡ actor.Mapper 0 }
    ensures seat { seat board.new ≡ committed attempt result (seat board.old) }
    ensures told { (winner : ℕ) → result ≡ Verdict.Lost winner → LostTo winner attempt board.new }
{
    board.commit(0, attempt)
}

// A revocation of an attempt of split 0 that lost.
fn revoke(board: &mut PlainBoard<TwoSplits>, attempt: u8, winner: u8) -> u16
    requires who { board.old.who ≡ actor.Mapper 0 }
    requires below { attempt < 2 }
    requires drew { Drew (seat board.old) 0 attempt }
    requires lost { LostTo winner attempt board.old }
{
    let _ = winner;
    board.revoke(0, attempt)
}

#[test]
fn a_split_is_given_once(rt: HostRuntime) -> Result<(), Fail> {
    let mut board = board(rt.alloc())?;
    assert_eq!(rt; ask(&mut board), Some(0));
    assert_eq!(rt; ask(&mut board), Some(1));
    assert_eq!(rt; ask(&mut board), None);
    Ok(())
}

#[test]
fn the_first_commit_wins(rt: HostRuntime) -> Result<(), Fail> {
    let mut board = board(rt.alloc())?;
    let first = draw(&mut board);
    let second = draw(&mut board);
    if first != 0 || second != 1 {
        return Err(Fail::from("other numbers were drawn"));
    }
    assert_eq!(rt; commit(&mut board, 0), Verdict::Won);
    let Verdict::Lost { winner } = commit(&mut board, 1) else {
        return Err(Fail::from("the second commit won"));
    };
    assert_eq!(rt; winner, 0);
    assert_eq!(rt; revoke(&mut board, 1, winner), 2);
    Ok(())
}
