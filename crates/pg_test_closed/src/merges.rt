//! The order in which logs are merged: by clock, and at one clock by the place of the log.

use crate::closed::holds;
use pg_cluster::order_of_logs;
use std::alloc::{AllocError, Global};
use std::test::*;

// The order of three logs, of which the second is empty.
fn merged(alloc: Global) -> Result<Vec<(usize, usize)>, AllocError> {
    let first = vec![in alloc; (1, 'a'), (4, 'b')]?;
    let last = vec![in alloc; (1, 'c'), (2, 'd')]?;
    let logs = vec![in alloc; first, Vec::new(alloc), last]?;
    match order_of_logs(alloc, &logs) {
        Err(AllocError) => order_of_logs(alloc, &logs),
        Ok(order) => Ok(order),
    }
}

#[test]
fn by_clock_then_by_log(rt: HostRuntime) {
    let wanted = match merged(rt.alloc()) {
        Ok(order) => order.as_slice() == &[(0, 0), (2, 0), (2, 1), (0, 1)][..],
        Err(AllocError) => false,
    };
    holds(&rt, wanted, "the order of the entries");
}
