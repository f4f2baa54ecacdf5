//! The ports of a node, by their places: how many commands came in at each, and what was answered.

use pg_node_opens::{Answer, OpId, Reply};
use std::alloc::{AllocError, Global};

/// A port, at which commands come in.
#[derive(Debug, Drop)]
pub struct Port {
    /// How many commands came in. They are numbered from 1.
    pub count: u32,
    /// The answers that were given and not forgotten, in the order in which they were given.
    pub answers: Vec<Answer>,
    /// How many answers were forgotten, which were given before those.
    pub forgotten: u64,
}

ghost use Rattle.std.specs.Prelude.{◌≡◌, ◌≢◌, ◌<◌, ◌+◌, ◌^◌, ◌++◌, ℕ, [], ◌∷◌, drop, nat_eq};
ghost use Rattle.std.specs.Prelude.{length, vec_len, vec_capacity, IfOk, IsOk, OnOk};
ghost use Rattle.pg_node_opens.specs.PgGroup.Functions.{upd};
ghost use Rattle.pg_node_ports.specs.Ports.{counted_at, HasRoomAt};
ghost use Rattle.pg_node_ports.specs.Ports.{port_commands, answers_in, forgotten_in, forgotten_on};

/// So many ports, at which no command came in.
///
/// Errors: `AllocError`, where there is a port.
pub fn idle_ports(alloc: Global, ports: u16) -> Result<Vec<Port>, AllocError>
    ensures len { IfOk result (λ made. length made.items ≡ ports) }
    ensures counts { IfOk result (λ made. port_commands made.items ≡ (λ port. 0)) }
    ensures answers { IfOk result (λ made. answers_in made.items ≡ (λ port. [])) }
    ensures forgotten { IfOk result (λ made. forgotten_in made.items ≡ (λ port. 0)) }
    ensures none { ports ≡ 0 → IsOk result }
{
    let mut made = Vec::with_capacity(alloc, usize::from(ports))?;
    for port in 0..ports {
        made.push(Port {
            count: 0,
            answers: Vec::new(alloc),
            forgotten: 0,
        })?;
    }
    Ok(made)
}

/// Makes room for one more answer at a port. No port loses room.
///
/// Errors: `AllocError`, which changes nothing; it does not come where there is room.
pub fn reserve_answer(ports: &mut Vec<Port>, port: u16) -> Result<(), AllocError>
    requires place { port < length ports.old.items }
    ensures len { length ports.new.items ≡ length ports.old.items }
    ensures counts { port_commands ports.new.items ≡ port_commands ports.old.items }
    ensures answers { answers_in ports.new.items ≡ answers_in ports.old.items }
    ensures ok { OnOk result (HasRoomAt ports.new.items port) }
    ensures succeeds { HasRoomAt ports.old.items port → IsOk result }
    ensures forgotten { forgotten_in ports.new.items ≡ forgotten_in ports.old.items }
    ensures rooms { (other : ℕ) → HasRoomAt ports.old.items other → HasRoomAt ports.new.items other }
{
    let entry = &mut ports[usize::from(port)];
    entry.reserve()
}

/// Counts the next command of a port, and answers it. There is room for the answer. It takes no memory, and no room of
/// another port.
pub fn give(ports: &mut Vec<Port>, port: u16, reply: Reply)
    requires place { port < length ports.old.items }
    requires room { HasRoomAt ports.old.items port }
    requires few { port_commands ports.old.items port + 1 < 2 ^ 32 }
    ensures len { length ports.new.items ≡ length ports.old.items }
    ensures counts { port_commands ports.new.items ≡ counted_at port (port_commands ports.old.items) }
    ensures answers { answers_in ports.new.items ≡ upd nat_eq (answers_in ports.old.items) port
        (answers_in ports.old.items port ++ record { number = port_commands ports.old.items port + 1; reply = reply } ∷ []) }
    ensures forgotten { forgotten_in ports.new.items ≡ forgotten_in ports.old.items }
    ensures rooms { (other : ℕ) → other ≢ port → HasRoomAt ports.old.items other → HasRoomAt ports.new.items other }
{
    let entry = &mut ports[usize::from(port)];
    entry.count += 1;
    entry.answer(entry.count, reply);
}

/// Counts the next command of a port. It takes no memory.
pub fn count(ports: &mut Vec<Port>, port: u16)
    requires place { port < length ports.old.items }
    requires few { port_commands ports.old.items port + 1 < 2 ^ 32 }
    ensures len { length ports.new.items ≡ length ports.old.items }
    ensures counts { port_commands ports.new.items ≡ counted_at port (port_commands ports.old.items) }
    ensures answers { answers_in ports.new.items ≡ answers_in ports.old.items }
    ensures forgotten { forgotten_in ports.new.items ≡ forgotten_in ports.old.items }
    ensures rooms { (other : ℕ) → HasRoomAt ports.old.items other → HasRoomAt ports.new.items other }
{
    let entry = &mut ports[usize::from(port)];
    entry.count += 1;
}

/// Of a port counts one command fewer, which was counted. It takes no memory.
pub fn uncount(ports: &mut Vec<Port>, port: u16)
    requires place { port < length ports.old.items }
    requires some { 0 < port_commands ports.old.items port }
    ensures len { length ports.new.items ≡ length ports.old.items }
    ensures counts { (counts : ℕ → ℕ) → port_commands ports.old.items ≡ counted_at port counts → port_commands ports.new.items ≡ counts }
    ensures answers { answers_in ports.new.items ≡ answers_in ports.old.items }
    ensures forgotten { forgotten_in ports.new.items ≡ forgotten_in ports.old.items }
    ensures rooms { (other : ℕ) → HasRoomAt ports.old.items other → HasRoomAt ports.new.items other }
{
    let entry = &mut ports[usize::from(port)];
    entry.count -= 1;
}

/// The next command of a port. It takes no memory.
pub fn next_op(ports: &Vec<Port>, port: u16) -> OpId
    requires place { port < length ports.now.items }
    requires few { port_commands ports.now.items port + 1 < 2 ^ 32 }
    ensures { result ≡ record { port = port; number = port_commands ports.now.items port + 1 } }
{
    let entry = &ports[usize::from(port)];
    OpId {
        port,
        number: entry.count + 1,
    }
}

/// Keeps the answer to a command at its port, where there is room. It takes no memory, and no room of another port.
pub fn keep_reserved(ports: &mut Vec<Port>, op: OpId, reply: Reply)
    requires place { op.port < length ports.old.items }
    requires room { HasRoomAt ports.old.items op.port }
    ensures kept { answers_in ports.new.items ≡ upd nat_eq (answers_in ports.old.items) op.port
        (answers_in ports.old.items op.port ++ record { number = op.number; reply = reply } ∷ []) }
    ensures counts { port_commands ports.new.items ≡ port_commands ports.old.items }
    ensures len { length ports.new.items ≡ length ports.old.items }
    ensures forgotten { forgotten_in ports.new.items ≡ forgotten_in ports.old.items }
    ensures rooms { (other : ℕ) → other ≢ op.port → HasRoomAt ports.old.items other → HasRoomAt ports.new.items other }
{
    let port = &mut ports[usize::from(op.port)];
    port.answer(op.number, reply);
}

/// Forgets the first answers of a port: all, where there are fewer. It takes no memory, and no port loses room.
pub fn forget(ports: &mut Vec<Port>, port: u16, count: usize)
    requires place { port < length ports.old.items }
    ensures len { length ports.new.items ≡ length ports.old.items }
    ensures counts { port_commands ports.new.items ≡ port_commands ports.old.items }
    ensures answers { answers_in ports.new.items ≡ upd nat_eq (answers_in ports.old.items) port (drop count (answers_in ports.old.items port)) }
    ensures forgotten { forgotten_in ports.new.items ≡ upd nat_eq (forgotten_in ports.old.items) port
        (forgotten_on (forgotten_in ports.old.items port) count (length (answers_in ports.old.items port))) }
    ensures rooms { (other : ℕ) → HasRoomAt ports.old.items other → HasRoomAt ports.new.items other }
{
    let entry = &mut ports[usize::from(port)];
    entry.forget(count);
}

/// How many answers of a port were forgotten. It takes no memory.
pub fn forgotten(ports: &Vec<Port>, port: u16) -> u64
    requires place { port < length ports.now.items }
    ensures { result ≡ forgotten_in ports.now.items port }
{
    let entry = &ports[usize::from(port)];
    entry.forgotten
}

impl Port {
    /// Makes room for one more answer.
    fn reserve(&mut self) -> Result<(), AllocError>
        ensures count { self.new.count ≡ self.old.count }
        ensures answers { self.new.answers.items ≡ self.old.answers.items }
        ensures forgotten { self.new.forgotten ≡ self.old.forgotten }
        ensures ok { OnOk result (vec_len self.new.answers < vec_capacity self.new.answers) }
        ensures succeeds { vec_len self.old.answers < vec_capacity self.old.answers → IsOk result }
        ensures room { vec_len self.old.answers < vec_capacity self.old.answers → vec_len self.new.answers < vec_capacity self.new.answers }
    {
        self.answers.reserve(1)
    }

    /// Answers the command of this number.
    fn answer(&mut self, number: u32, reply: Reply)
        requires { vec_len self.old.answers < vec_capacity self.old.answers }
        ensures count { self.new.count ≡ self.old.count }
        ensures answers { self.new.answers.items ≡ self.old.answers.items ++ record { number = number; reply = reply } ∷ [] }
        ensures forgotten { self.new.forgotten ≡ self.old.forgotten }
    {
        self.answers.push_reserved(Answer { number, reply });
    }

    /// Forgets the first answers: all, where there are fewer.
    fn forget(&mut self, count: usize)
        ensures counts { self.new.count ≡ self.old.count }
        ensures answers { self.new.answers.items ≡ drop count self.old.answers.items }
        ensures forgotten { self.new.forgotten ≡ forgotten_on self.old.forgotten count (length self.old.answers.items) }
        ensures room { vec_len self.old.answers < vec_capacity self.old.answers → vec_len self.new.answers < vec_capacity self.new.answers }
    {
        let went = count.min(self.answers.len());
        drop(self.answers.drain(..went));
        self.forgotten = self.forgotten.saturating_add(went as u64);
    }
}
