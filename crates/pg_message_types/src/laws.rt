ghost use Rattle.std.specs.Prelude.{◌≡◌};
ghost use Rattle.pg_message_types.specs.declared.name.TheConstants.{MAX_NAME_LEN, MAX_NAME_DEPTH};
ghost use Rattle.pg_message_types.specs.declared.packet.Packet.{Packet};
ghost use Rattle.pg_message_types.specs.declared.packet.TheConstants.{MAX_STAMP};
ghost use Rattle.pg_message_types.specs.Limits.{max_name_len, max_name_depth, max_stamp};
ghost use Rattle.pg_message_types.specs.Reading.{packet_of};
ghost use Rattle.pg_message_types.specs.Writing.{term_of_packet, sendable};

/// The term of a packet is read as the packet, exactly where the packet may be sent; else it is refused with the fault
/// with which the packet is not sent.
pub fn read_back()
    ensures { (packet : Packet) → packet_of (term_of_packet packet) ≡ sendable packet }
{}

/// How large names and stamps may be.
pub fn limits_of_packets()
    ensures name_len { MAX_NAME_LEN ≡ max_name_len }
    ensures name_depth { MAX_NAME_DEPTH ≡ max_name_depth }
    ensures stamp { MAX_STAMP ≡ max_stamp }
{}
