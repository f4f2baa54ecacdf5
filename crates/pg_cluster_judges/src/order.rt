ghost use Rattle.std.specs.Prelude.{◌≡◌, ◌<◌, ◌+◌, ◌∷◌, [], ℕ, List, map, drop, length, slice_index, IfOk, MatchOption};
ghost use Rattle.pg_cluster_judges.specs.Merge.{Merges, IsNext, rest_of, clocks_of, clocks_in};

use std::alloc::{AllocError, Global};

// The clock of the entry at a place, if the log has one.
fn clock_at<E>(log: &[(u32, E)], place: usize) -> Option<u32>
    ensures { MatchOption result (drop place (clocks_of log.now) ≡ [])
        (λ clock. (later : List ℕ) × (drop place (clocks_of log.now) ≡ clock ∷ later)) }
{
    if place < log.len() {
        Some(log[place].0)
    } else {
        None
    }
}

// The place after one of the log.
fn place_after<E>(log: &[(u32, E)], place: usize) -> usize
    requires { place < length log.now }
    ensures { result ≡ place + 1 }
{
    place + 1
}

// The log whose next entry comes first, where `read` entries of each have been read.
fn next_log<E>(logs: &[Vec<(u32, E)>], read: &[usize]) -> Option<usize>
    requires { length read.now ≡ length logs.now }
    ensures { MatchOption result
        ((i : ℕ) → i < length logs.now
        → rest_of (clocks_in (map (λ v. v.items) logs.now)) (λ j. slice_index read.now j) i ≡ [])
        (λ i. IsNext (length logs.now)
        (rest_of (clocks_in (map (λ v. v.items) logs.now)) (λ j. slice_index read.now j)) i) }
{
    let mut next = None;
    let mut least = 0;
    for i in 0..logs.len() {
        if let Some(clock) = clock_at(&logs[i], read[i]) {
            if next.is_none() || clock < least {
                next = Some(i);
                least = clock;
            }
        }
    }
    next
}

/// The order in which the entries of these logs are merged: by their clocks, and at one clock by the place of the
/// log. Each is given as its log and its place there. The logs stay as they are.
///
/// Errors: `AllocError`.
///
/// Cost: a look at each log for each entry; memory for each log and each entry.
pub fn order_of_logs<E>(
    alloc: Global,
    logs: &[Vec<(u32, E)>],
) -> Result<Vec<(usize, usize)>, AllocError>
    ensures ok { IfOk result (λ order. Merges (length logs.now)
        (clocks_in (map (λ v. v.items) logs.now)) order.items) }
{
    let mut read = vec![in alloc; 0usize; logs.len()]?;
    let mut order = Vec::new(alloc);
    while let Some(i) = next_log(logs, &read) {
        let place = read[i];
        order.push((i, place))?;
        read[i] = place_after(&logs[i], place);
    }
    Ok(order)
}
