ghost use Rattle.std.specs.Prelude.{◌≡◌};
ghost use Rattle.pg_message_writer.specs.declared.size.TheConstants.{MAX_SMALL_LEN};
ghost use Rattle.pg_message_writer.specs.Limits.{max_small_len};

/// How many bytes the body of a packet that is no exchange takes at most.
pub fn limit_of_small_packets()
    ensures { MAX_SMALL_LEN ≡ max_small_len }
{}
