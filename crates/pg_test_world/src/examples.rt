//! Examples as scripts, and what each node has answered then, node by node. Whole examples stand in `examples/scripts`; these are also made
//! in prefixes, and with refused memory.

/// A script, and the answers.
#[derive(Clone, Copy)]
pub struct Example<'a> {
    pub script: &'a str,
    pub answers: &'a str,
}

// A process of `a` joins twice at `b`, and leaves once.
pub const JOIN_TWICE_LEAVE_ONCE: Example = Example {
    script: "node a\nnode b\nsettle\ncreate a 1\nsettle\nmake a\njoin b 1 <a.1.0>\nsettle\n\
        join b 1 <a.1.0>\nsettle\nmembers a 1\nmembers b 1\nleave b 1 <a.1.0>\nsettle\nmembers a 1\n\
        members b 1\n",
    answers: "a 1 ok\na 2 <a.1.0>\na 3 [<a.1.0>,<a.1.0>]\na 4 [<a.1.0>]\nb 1 ok\nb 2 ok\n\
        b 3 [<a.1.0>,<a.1.0>]\nb 4 ok\nb 5 [<a.1.0>]\n",
};

// A delete at `b` comes between the look and the lock of a join at `a`, which is answered and adds nothing.
pub const DELETE_BETWEEN_LOOK_AND_LOCK: Example = Example {
    script: "node a made 1\nnode b\nsettle\ncreate a 1\nsettle\njoin a 1 <a.1.0>\ndelete b 1\nsettle\n\
        retry a 2\nsettle\nmembers a 1\nmembers b 1\n",
    answers: "a 1 ok\na 2 ok\na 3 {error,{no_such_group,1}}\nb 1 ok\nb 2 {error,{no_such_group,1}}\n",
};

// Both nodes make the group; the greatest comes first.
pub const TWO_CREATORS: Example = Example {
    script: "node a\nnode b\nsettle\ncreate a 1\ncreate b 1\nsettle\nretry a 1\nsettle\ngroups a\n",
    answers: "a 1 ok\na 2 [1]\nb 1 ok\n",
};

// Both nodes start with a group of one name; while nothing was told, each has its own.
pub const INITIAL_TABLES: Example = Example {
    script: "node a made 1\nnode b made 1\nhas a 1 <a.1.0> <a.1.0>\nhas b 1 <a.1.0> <b.1.0>\nmembers a 1\n\
        create b 2\nsettle\nmembers a 1\nmembers b 1\nretry b 1\nsettle\n",
    answers: "a 1 [<a.1.0>,<a.1.0>]\na 2 [<a.1.0>,<a.1.0>,<b.1.0>]\nb 2 [<a.1.0>,<a.1.0>,<b.1.0>]\nb 1 ok\n",
};

// A process ends while a join of it is on the way: it is no member when all is done.
pub const END_BEATS_LATE_JOIN: Example = Example {
    script: "node a made 1\nnode b\nhas a 1 <a.1.0>\nsettle\njoin b 1 <a.1.0>\nput b a\npull a b\ntake a b\n\
        put a b\npull b a\ntake b a\nend a <a.1.0>\nmembers b 1\nmembers a 1\nsettle\nmembers a 1\n\
        members b 1\n",
    answers: "a 1 ok\na 2 []\na 3 []\nb 2 [<a.1.0>,<a.1.0>]\nb 1 ok\nb 3 []\n",
};

// A member of the own node is picked where there is one, else one of all.
pub const CLOSEST_MEMBER: Example = Example {
    script: "node a\nnode b made 2\nhas b 1 <b.1.0> <b.1.0> <b.2.0>\nhas b 3\nsettle\nclosest a 1 4\n\
        closest a 1 5\nclosest a 3 0\nclosest a 4 0\nclosest b 1 4294967295\n",
    answers: "a 1 <b.1.0>\na 2 <b.2.0>\na 3 {error,{no_process,3}}\na 4 {error,{no_such_group,4}}\n\
        b 1 <b.1.0>\n",
};

// Of three nodes, `a` and `b` have the group. The exchange of `b` comes to `a`, and then `c` asks nobody yet.
pub const FORMATION: Example = Example {
    script: "node a made 1\nnode b\nnode c\nhas a 1 <a.1.0> <a.1.0>\nhas b 1 <a.1.0>\nput b a\npull a b\n\
        take a b\nmembers a 1\nput a b\npull b a\ntake b a\nput c b\npull b c\ntake b c\ncreate b 2\n\
        put b c\npull c b\ntake c b\nput b c\npull c b\ntake c b\nput c b\npull b c\ntake b c\nput c a\n\
        pull a c\ntake a c\nsettle\nmembers c 1\nretry b 1\nsettle\n",
    answers: "a 1 [<a.1.0>,<a.1.0>]\nb 1 ok\nc 1 [<a.1.0>,<a.1.0>]\n",
};

// Where the loss is seen the processes of the lost node leave each group, and join none later.
pub const LOSS_DROPS_MEMBERS: Example = Example {
    script: "node a made 1\nnode b made 1\nhas a 1 <a.1.0>\nhas b 1 <b.1.0>\nsettle\nlose a\nmembers b 1\n\
        seeloss b a\nmembers b 1\njoin b 1 <a.1.0>\nmembers b 1\n",
    answers: "b 1 [<a.1.0>,<b.1.0>]\nb 2 [<b.1.0>]\nb 3 ok\nb 4 [<b.1.0>]\n",
};

// The lock of a lost node is free where its loss is seen; it is seen once.
pub const LOSS_FREES_LOCK: Example = Example {
    script: "node a\nnode b\nnode c\nsettle\ncreate a 1\nput a c\npull c a\ntake c a\nlose a\nseeloss c a\n\
        seeloss b a\ncreate b 1\nsettle\ngroups b\ngroups c\nseeloss c a\n",
    answers: "b 1 ok\nb 2 [1]\nc 1 [1]\n",
};

// The greatest node is lost while it is asked: the command waits, and its retry asks the next.
pub const NEW_GREATEST: Example = Example {
    script: "node a\nnode b\nnode c\nsettle\ncreate a 1\nlose c\nseeloss a c\nretry a 1\nseeloss b c\n\
        settle\ngroups b\n",
    answers: "a 1 ok\nb 1 [1]\n",
};

// The update of a lost node has come to `b`, and not to `c`, which leaves it out for good.
pub const LOSS_LEAVES_OUT: Example = Example {
    script: "node a\nnode b\nnode c\nsettle\ncreate a 1\nput a c\npull c a\ntake c a\nput c a\npull a c\n\
        take a c\nput a b\npull b a\ntake b a\nput b a\npull a b\ntake a b\nput a b\nlose a\npull b a\n\
        take b a\nseeloss b a\nseeloss c a\ngroups b\ngroups c\ncreate c 1\nsettle\ngroups c\n",
    answers: "b 1 [1]\nc 1 []\nc 2 ok\nc 3 [1]\n",
};
