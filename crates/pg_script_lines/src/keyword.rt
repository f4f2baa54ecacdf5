//! The first word of a line.

ghost use Rattle.std.specs.Prelude.{◌≡◌, IfSome};
ghost use Rattle.pg_script_lines.specs.Keywords.{keyword_of, node_keyword_of};

/// What kind of line it is.
#[derive(Clone, Copy)]
pub(crate) enum Keyword {
    Ring,
    Node,
    Has,
    Settle,
    History,
    /// A line about two nodes.
    Pair(PairKeyword),
    /// A line about one node.
    At(NodeKeyword),
}

/// What kind of line about two nodes.
#[derive(Clone, Copy)]
pub(crate) enum PairKeyword {
    Put,
    Pull,
    Take,
    Outbox,
    SeeLoss,
}

/// What kind of line about one node.
#[derive(Clone, Copy)]
pub(crate) enum NodeKeyword {
    Create,
    Delete,
    Join,
    Leave,
    Make,
    End,
    Members,
    Local,
    Groups,
    Closest,
    Retry,
    Lock,
    Lose,
}

/// The keyword of this text, if it is one.
pub(crate) fn keyword_of(word: &str) -> Option<Keyword>
    ensures { result ≡ keyword_of word.now }
{
    match word {
        "ring" => Some(Keyword::Ring),
        "node" => Some(Keyword::Node),
        "has" => Some(Keyword::Has),
        "settle" => Some(Keyword::Settle),
        "history" => Some(Keyword::History),
        "put" => Some(Keyword::Pair(PairKeyword::Put)),
        "pull" => Some(Keyword::Pair(PairKeyword::Pull)),
        "take" => Some(Keyword::Pair(PairKeyword::Take)),
        "outbox" => Some(Keyword::Pair(PairKeyword::Outbox)),
        "seeloss" => Some(Keyword::Pair(PairKeyword::SeeLoss)),
        _ => match node_keyword_of(word) {
            Some(keyword) => Some(Keyword::At(keyword)),
            None => None,
        },
    }
}

/// The keyword of a line about one node, if this is one.
fn node_keyword_of(word: &str) -> Option<NodeKeyword>
    ensures { result ≡ node_keyword_of word.now }
{
    match word {
        "create" => Some(NodeKeyword::Create),
        "delete" => Some(NodeKeyword::Delete),
        "join" => Some(NodeKeyword::Join),
        "leave" => Some(NodeKeyword::Leave),
        "make" => Some(NodeKeyword::Make),
        "end" => Some(NodeKeyword::End),
        "members" => Some(NodeKeyword::Members),
        "local" => Some(NodeKeyword::Local),
        "groups" => Some(NodeKeyword::Groups),
        "closest" => Some(NodeKeyword::Closest),
        "retry" => Some(NodeKeyword::Retry),
        "lock" => Some(NodeKeyword::Lock),
        "lose" => Some(NodeKeyword::Lose),
        _ => None,
    }
}
