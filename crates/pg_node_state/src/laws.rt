ghost use Rattle.std.specs.Prelude.{◌≡◌, ◌≤◌, ℕ, List, Option, length};
ghost use Rattle.pg_node_ports.specs.PgStep.declared.answer.Answer.{Answer};
ghost use Rattle.pg_node_ports.specs.PgStep.declared.command.OpId.{OpId};
ghost use Rattle.pg_node_ports.specs.PgStep.Nodes.{Node};
ghost use Rattle.pg_node_ports.specs.PgStep.State.{Response};
ghost use Rattle.pg_node_state.specs.States.{Gave, left_at};
ghost use Rattle.pg_frame.specs.Frames.{frame};
ghost use Rattle.pg_node_ports.specs.PgMessageTypes.Writing.{framed};

/// What pg_frame reads as a frame and what is written as one have one form.
pub fn one_form_of_frames()
    ensures { (body : List ℕ) → frame body ≡ framed body }
{}

/// What an event answers is the same where answers of a port were forgotten before it: it stands after those that are left. So a node that
/// forgot some goes on as one that did not, since no event looks at answers.
pub fn answers_are_given_to_the_rest()
    ensures { (own : Node) (gave : Option (OpId × Response)) (before after : ℕ → List Answer) (port count : ℕ)
        → count ≤ length (before port) → Gave own gave before after
        → Gave own gave (left_at port count before) (left_at port count after) }
{}
