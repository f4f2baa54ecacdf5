//! Each growth of memory, or each start of a thread, may be refused once: a cluster is started again, a turn goes on, and what stopped
//! is finished again. Each test passes whichever is refused of what it is about.

use crate::rows::{Case, Part, Row};
use crate::setting::{ONE, Setting, TWO};

const SMALL: Setting = Setting { ring: 64, ..ONE };

const PAIR: Setting = Setting { ring: 64, ..TWO };

const CREATE: &[Part] = &[(1, &[Row::Asks(0, "create a g", "ok")])];

// One node, and two.
const CASES: &[Case] = &[(SMALL, CREATE, 0), (PAIR, CREATE, 0)];

mod growths {
    use super::CASES;
    use crate::rows::check_all;
    use pg_cluster::{StartFault, WorldFault};

    // What the start of a thread takes itself is no growth that it tells of.
    const REFUSED: &[StartFault] = &[
        StartFault::World(WorldFault::OutOfMemory),
        StartFault::NoThread,
    ];

    #[test]
    fn nodes_are_whole(rt: HostRuntime) {
        check_all(&rt, rt.alloc(), CASES, REFUSED);
    }
}

mod threads {
    use super::CASES;
    use crate::rows::check_all;
    use pg_cluster::StartFault;

    const REFUSED: &[StartFault] = &[StartFault::NoThread];

    #[test]
    fn nodes_are_whole(rt: HostRuntime) {
        check_all(&rt, rt.alloc(), CASES, REFUSED);
    }
}
