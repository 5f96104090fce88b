//! The time limits for a controller.

ghost use Rattle.std.specs.Prelude.{◌≡◌, ◌∷◌, []};
ghost use Rattle.device_io.specs.Patience.{given_up_at};

/// Returns when a controller is given up, in milliseconds: `patience` after the first wait began.
#[tactic(auto, unfolding(crate::specs::Patience::given_up_at))]
pub(crate) fn given_up_at(
    patience: u64,
    stalled_since: Option<u64>,
    begun: Option<u64>,
) -> Option<u64>
    ensures { result ≡ given_up_at patience (stalled_since ∷ begun ∷ []) }
{
    match stalled_since {
        None => wait_end(patience, begun),
        Some(since) => {
            let stalled = since.saturating_add(patience);
            match begun {
                None => Some(stalled),
                Some(begun) => Some(stalled.min(begun.saturating_add(patience))),
            }
        }
    }
}

#[tactic(auto, unfolding(crate::specs::Patience::given_up_at))]
fn wait_end(patience: u64, begun: Option<u64>) -> Option<u64>
    ensures { result ≡ given_up_at patience (begun ∷ []) }
{
    Some(begun?.saturating_add(patience))
}
