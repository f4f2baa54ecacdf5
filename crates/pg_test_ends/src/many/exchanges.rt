use crate::exchanges::{Forming, How, all_form, forget, formation};
use crate::verdicts::holds;

/// A node of one peer takes 1,001 groups, each of one member.
const MANY: &[Forming] = &[(1, 1, &[(How::Announces, 0, (0, 1001), true)])];

/// A node of 1,001 peers forms when the last of them is lost, and one of one peer with 1,001 groups.
#[test]
fn many_peers(rt: HostRuntime) {
    let mut formation = formation(&rt, rt.alloc(), 1001);
    for peer in 0..1001 {
        holds(&rt, !formation.formed(), "not formed at", peer);
        forget(&rt, &mut formation, peer);
    }
    holds(&rt, formation.formed(), "formed of", 1001);
    drop(formation);
    all_form(&rt, rt.alloc(), MANY);
}
