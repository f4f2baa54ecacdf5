//! The configuration of a service.

ghost use Rattle.std.specs.Prelude.{◌≡◌, ◌⊎◌, Some, None, IfOk, IfErr};
ghost use Rattle.std.specs.Str.{chars};
ghost use Rattle.pg_node_requests.specs.Members.{starts_said};
ghost use Rattle.pg_talk.specs.declared.service.fault.ServiceFault.TheVariants.{BadText, OutOfMemory};

use crate::service::fault::ServiceFault;
use pg_cluster::Config;
use pg_node_requests::starts_of;
use pg_term::Atom;
use pg_text::TextFault;
use std::alloc::Global;

/// How many bytes a ring between two nodes has room for.
const RING: usize = 65_536;

/// The configuration of nodes with these names, each with so many ports, and rings of 65,536 bytes. `members`: what they know as they
/// start, by the text of one term, a list of `{Node, Made, [{Name, [Pid, ..]}, ..]}`. A node that does not come there made no process and
/// knows no group, and none comes twice.
///
/// Errors: `BadText`, only where it is no such text. `OutOfMemory`, where memory runs out before that is known.
///
/// Cost: the configuration, and the term of the text while it is read.
pub fn config_of(
    alloc: Global,
    names: &[Atom],
    ports: u16,
    members: &str,
) -> Result<Config, ServiceFault>
    ensures ok { IfOk result (λ config. starts_said names.now ports (chars members.now) ≡ Some config.starts.items) }
    ensures ring { IfOk result (λ config. config.ring ≡ 65536) }
    ensures bad { IfErr result (λ fault. fault ≡ BadText → starts_said names.now ports (chars members.now) ≡ None) }
    ensures fault { IfErr result (λ fault. (fault ≡ BadText) ⊎ (fault ≡ OutOfMemory)) }
{
    match starts_of(alloc, names, ports, members) {
        Ok(starts) => Ok(Config { ring: RING, starts }),
        Err(TextFault::BadText) => Err(ServiceFault::BadText),
        Err(TextFault::OutOfMemory) => Err(ServiceFault::OutOfMemory),
    }
}
