//! What the provers of a match among a host's own parties have of their stakes.
ghost use Rattle.std.specs.Prelude.{◌≡◌, ◌≢◌, ◌≤◌, ◌++◌, false, length, take, drop, IfOk};
ghost use Rattle.audit.specs.LineByLine.{setup_of_head};
ghost use Rattle.tournament.specs.Bracket.{is_complete};
ghost use Rattle.coshalit_c.specs.HostMatch.{head_of_match, IsStillOpen, IsNoLogAnywhere};
ghost use Rattle.coshalit_c.specs.Stakes.{balances_by, stakes_are_in_limits, AreStakesWritten, AreStakesFound};
ghost use Rattle.open_match.specs.OpenMatch.{once_over};
ghost use Rattle.coshalit_c.specs.declared.stakes.Settlement.TheVariants as settlements;

use crate::found::{BAD_LOG, BAD_NUMBERS, OUT_OF_MEMORY, STILL_OPEN, ending};
use crate::numbers::{CoshalitNumbers, head_of};
use deposits::Balances;
use digest_core::Sha256;
use open_match::{LogFault, after, balances, burned};
use rd_base::{MAX_STAKE, Memory};
use std::alloc::Global;
use step_referee::MachineJudge;
use tournament::Match;
use transcript_text::Head;

/// By which settlement the stakes are paid out.
#[derive(Clone, Copy, Debug)]
pub enum Settlement {
    /// What a prover loses in a dispute, the other side wins.
    Ledger,
    /// What a prover loses is burned.
    Burning,
}

/// What the provers of a match have by a settlement; `None` if and only if a question is open.
fn settled(
    alloc: Global,
    settlement: Settlement,
    stake: u64,
    game: &Match<MachineJudge<Sha256>>,
) -> Result<Option<Balances>, Memory>
    requires small { stake ≤ 1000000000 }
    requires few { game.now.setup.provers ≤ 16 }
    ensures { IfOk result (λ b.
        b ≡ once_over game.now.game.record_ (balances_by settlement stake game.now.setup.provers game.now.game.record_)) }
{
    match settlement {
        Settlement::Ledger => balances(alloc, stake, game),
        Settlement::Burning => burned(alloc, stake, game),
    }
}

/// Writes numbers to the first places of `room`, as many as there is room for.
fn write_numbers(numbers: &[u64], room: &mut [u64])
    ensures { room.new ≡ take (length room.old) numbers.now ++ drop (length numbers.now) room.old }
{
    let count = numbers.len().min(room.len());
    room[..count].copy_from_slice(&numbers[..count]);
}

/// What the provers of a match have, if it is over.
fn stakes_of(
    alloc: Global,
    settlement: Settlement,
    stake: u64,
    head: &Head,
    game: &Match<MachineJudge<Sha256>>,
    balances: &mut [u64],
    pool: &mut u64,
) -> u32
    requires small { stake ≤ 1000000000 }
    requires few { head.now.provers ≤ 16 }
    requires version { game.now.judge.version ≡ head.now.version }
    requires numbers { game.now.setup ≡ setup_of_head head.now }
    ensures over { result ≢ 9 → result ≢ 13 → AreStakesWritten settlement head.now stake game.now.game result balances.old balances.new pool.new }
    ensures open_ { result ≡ 13 → is_complete game.now.game.record_ ≡ false }
    ensures others { (result ≢ 14) × (result ≢ 15) }
    ensures memory { result ≡ 9 → (balances.new ≡ balances.old) × (pool.new ≡ pool.old) }
    ensures waits { result ≡ 13 → (balances.new ≡ balances.old) × (pool.new ≡ pool.old) }
{
    match settled(alloc, settlement, stake, game) {
        Ok(Some(found)) => {
            let (status, _) = ending(game);
            write_numbers(found.of.as_slice(), balances);
            *pool = found.pool;
            status
        }
        Ok(None) => STILL_OPEN,
        Err(_) => OUT_OF_MEMORY,
    }
}

/// What the provers of the match of these numbers have after a log of posts, once it is over, by a settlement.
fn stakes_after(
    alloc: Global,
    settlement: Settlement,
    numbers: &CoshalitNumbers,
    stake: u64,
    log: &[u8],
    balances: &mut [u64],
    pool: &mut u64,
) -> u32
    ensures found { result ≢ 9 → result ≢ 13 → result ≢ 14 → result ≢ 15 → AreStakesFound settlement (head_of_match numbers.now) stake log.now result balances.old balances.new pool.new }
    ensures open_ { result ≡ 13 → IsStillOpen (head_of_match numbers.now) log.now }
    ensures numbers { result ≡ 14 → stakes_are_in_limits (head_of_match numbers.now) stake ≡ false }
    ensures log { result ≡ 15 → IsNoLogAnywhere (head_of_match numbers.now) log.now }
    ensures memory { result ≡ 9 → (balances.new ≡ balances.old) × (pool.new ≡ pool.old) }
    ensures unwritten_open { result ≡ 13 → (balances.new ≡ balances.old) × (pool.new ≡ pool.old) }
    ensures unwritten_numbers { result ≡ 14 → (balances.new ≡ balances.old) × (pool.new ≡ pool.old) }
    ensures unwritten_log { result ≡ 15 → (balances.new ≡ balances.old) × (pool.new ≡ pool.old) }
{
    if stake > MAX_STAKE {
        return BAD_NUMBERS;
    }
    let head = head_of(numbers);
    match after(alloc, &head, MachineJudge::new(Sha256, head.version), log) {
        Ok(open) => stakes_of(alloc, settlement, stake, &head, &open.game, balances, pool),
        Err(LogFault::BadHead) => BAD_NUMBERS,
        Err(LogFault::BadEntry { .. }) => BAD_LOG,
        Err(LogFault::Memory) => OUT_OF_MEMORY,
    }
}

/// What the provers of the match of these numbers have of their stakes after a log of posts, once it is over, if each put down `stake`, by the
/// ledger (`deposits::balances`): the balances are written to `balances`, in the order of the provers, as many as there is room for, and what
/// is in the pool to `pool`. Room for 16 is always enough.
///
/// The status is that of `coshalit_match`, and 14 also if `stake` is above `MAX_STAKE`. Unless it is 0, 10 or 11 nothing is written.
#[unsafe(no_mangle)]
pub extern "C" fn coshalit_match_balances(
    alloc: Global,
    numbers: &CoshalitNumbers,
    stake: u64,
    log: &[u8],
    balances: &mut [u64],
    pool: &mut u64,
) -> u32
    ensures found { result ≢ 9 → result ≢ 13 → result ≢ 14 → result ≢ 15 → AreStakesFound settlements.Ledger (head_of_match numbers.now) stake log.now result balances.old balances.new pool.new }
    ensures open_ { result ≡ 13 → IsStillOpen (head_of_match numbers.now) log.now }
    ensures numbers { result ≡ 14 → stakes_are_in_limits (head_of_match numbers.now) stake ≡ false }
    ensures log { result ≡ 15 → IsNoLogAnywhere (head_of_match numbers.now) log.now }
    ensures memory { result ≡ 9 → (balances.new ≡ balances.old) × (pool.new ≡ pool.old) }
    ensures unwritten_open { result ≡ 13 → (balances.new ≡ balances.old) × (pool.new ≡ pool.old) }
    ensures unwritten_numbers { result ≡ 14 → (balances.new ≡ balances.old) × (pool.new ≡ pool.old) }
    ensures unwritten_log { result ≡ 15 → (balances.new ≡ balances.old) × (pool.new ≡ pool.old) }
{
    stakes_after(
        alloc,
        Settlement::Ledger,
        numbers,
        stake,
        log,
        balances,
        pool,
    )
}

/// The same by the settlement that burns (`deposits::burned`): each prover that isn't out keeps its stake, and each other stake is burned.
/// What is burned is written to `pool`.
#[unsafe(no_mangle)]
pub extern "C" fn coshalit_match_burned(
    alloc: Global,
    numbers: &CoshalitNumbers,
    stake: u64,
    log: &[u8],
    balances: &mut [u64],
    pool: &mut u64,
) -> u32
    ensures found { result ≢ 9 → result ≢ 13 → result ≢ 14 → result ≢ 15 → AreStakesFound settlements.Burning (head_of_match numbers.now) stake log.now result balances.old balances.new pool.new }
    ensures open_ { result ≡ 13 → IsStillOpen (head_of_match numbers.now) log.now }
    ensures numbers { result ≡ 14 → stakes_are_in_limits (head_of_match numbers.now) stake ≡ false }
    ensures log { result ≡ 15 → IsNoLogAnywhere (head_of_match numbers.now) log.now }
    ensures memory { result ≡ 9 → (balances.new ≡ balances.old) × (pool.new ≡ pool.old) }
    ensures unwritten_open { result ≡ 13 → (balances.new ≡ balances.old) × (pool.new ≡ pool.old) }
    ensures unwritten_numbers { result ≡ 14 → (balances.new ≡ balances.old) × (pool.new ≡ pool.old) }
    ensures unwritten_log { result ≡ 15 → (balances.new ≡ balances.old) × (pool.new ≡ pool.old) }
{
    stakes_after(
        alloc,
        Settlement::Burning,
        numbers,
        stake,
        log,
        balances,
        pool,
    )
}
