// Who can move: at the fence everyone who has not arrived, behind it the holder alone.
#![tactic(auto)]

pub mod passes;

ghost use Rattle.std.specs.Prelude.{◌≡◌, ◌-◌, ◌≤◌, ◌<◌, IfSome, unwrap_or};
ghost use Rattle.protocol.specs.Format.{workers_limit};
ghost use Rattle.queue.specs.List.{Below};
ghost use Rattle.token.specs.Token.{arrived_can, TurnedOver, FirstAble};

use format::limits::WORKERS_LIMIT;
use queue::Queue;

// How a holder's step leaves the round: how many of its list have not arrived, the rounds that are completed, and, where the next
// list begins the next round, that list.
#[derive(Clone, Copy)]
pub struct Round {
    pub begun: Option<Queue>,
    pub away: u64,
    pub rounds: u64,
}

// Worker w arrives at the fence; the last one to arrive hands the token to the first in the list. How many are still away.
pub fn arrive(first: u64, away: u64, w: usize, can: &mut [bool; WORKERS_LIMIT]) -> u64
    requires { (first < workers_limit) × (w < workers_limit) × (1 ≤ away) }
    ensures { (result ≡ away - 1) × (can.new ≡ arrived_can first away w can.old) }
{
    can[w] = false;
    let left = away - 1;
    if left == 0 {
        can[first as usize] = true;
    }
    left
}

// After the holder h's step: the first in the list holds the token, or, where nobody is in the list, the next round begins.
#[tactic(auto, unfolding(crate::specs::Token::raised))]
pub fn turn_over(
    first: Option<u64>,
    next: Queue,
    h: usize,
    rounds: u64,
    can: &mut [bool; WORKERS_LIMIT],
) -> Round
    requires { IfSome first (λ w. w < workers_limit) × (h < workers_limit) × (rounds < 65535) × Below workers_limit next }
    ensures { TurnedOver first next h rounds can.old result can.new }
{
    can[h] = false;
    if let Some(w) = first {
        can[w as usize] = true;
        return Round {
            begun: None,
            away: 0,
            rounds,
        };
    }
    next.set_all(can, true);
    Round {
        begun: Some(next),
        away: next.count(),
        rounds: rounds + 1,
    }
}

// The first worker that can move.
pub fn first_able(can: &[bool; WORKERS_LIMIT]) -> Option<usize>
    ensures named { IfSome result (λ w. w < workers_limit) }
    ensures first { FirstAble can.now (unwrap_or result workers_limit) }
{
    can.iter().position(|able| *able)
}
