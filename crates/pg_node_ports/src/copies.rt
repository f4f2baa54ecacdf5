//! A copy of a port.

ghost use Rattle.std.specs.Prelude.{◌≡◌, IfOk};

use crate::port::Port;
use pg_node_opens::Answer;
use std::alloc::{AllocError, Global};

impl Clone for Port {
    ghost use Rattle.pg_node_ports.specs.Same.{IsSamePort};

    ghost is_clone = { IsSamePort };

    fn clone(&self) -> Result<Port, AllocError> {
        let answers = copy_answers(*self.answers.allocator(), &self.answers)?;
        Ok(Port {
            count: self.count,
            answers,
            forgotten: self.forgotten,
        })
    }
}

/// The same answers in the same order.
fn copy_answers(alloc: Global, answers: &[Answer]) -> Result<Vec<Answer>, AllocError>
    ensures { IfOk result (λ copies. copies.items ≡ answers.now) }
{
    let mut copies = Vec::with_capacity(alloc, answers.len())?;
    for answer in answers {
        copies.push(answer.copy(alloc)?)?;
    }
    Ok(copies)
}
