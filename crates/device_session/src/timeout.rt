//! How long a session waits at most. All times are in milliseconds.

ghost use Rattle.std.specs.Prelude.{◌≡◌};
ghost use Rattle.device_session.specs.Timeout.{first_of, timeout_of, KeepsDeadline, KeepsLimits, WakesForWork};

use crate::peer_clock::LONGEST_WAIT;
use crate::strangers::sooner;

/// Returns how long to wait at most: not at all if the session `acts`, and not for long while a
/// time limit of a peer runs.
///
/// `limits` are by the clock of the peers, whose time is `time`. The `deadline` is of the host,
/// whose time is `now`.
#[tactic(auto, using(crate::proofs::Waking::wakes_for_work, crate::proofs::Waking::keeps_deadline, crate::proofs::Waking::keeps_limits))]
pub(crate) fn timeout_of(
    acts: bool,
    limits: &[Option<u64>],
    time: u64,
    deadline: Option<u64>,
    now: u64,
) -> Option<u64>
    ensures timeout { result ≡ timeout_of acts limits.now time deadline now }
    // A session that does not wait has something to do, or a time that is over.
    ensures work { WakesForWork }
    // None waits longer than until the deadline of its host.
    ensures deadline { KeepsDeadline }
    // None waits longer than until a time limit of a peer.
    ensures limits { KeepsLimits }
{
    if acts {
        return Some(0);
    }
    let peers = match first_of(limits) {
        Some(due) => Some(due.saturating_sub(time).min(LONGEST_WAIT)),
        None => None,
    };
    let own = match deadline {
        Some(due) => Some(due.saturating_sub(now)),
        None => None,
    };
    sooner(own, peers)
}

fn first_of(times: &[Option<u64>]) -> Option<u64>
    ensures { result ≡ first_of times.now }
{
    let mut first = None;
    for time in times {
        first = sooner(first, *time);
    }
    first
}
