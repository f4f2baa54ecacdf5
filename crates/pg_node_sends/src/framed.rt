//! One frame, and the peers that it goes to.

ghost use Rattle.std.specs.Prelude.{◌≡◌, ◌≤◌, ◌+◌, [], true, false, length, Ok, IsOk};
ghost use Rattle.pg_node_opens.specs.PgMessageTypes.declared.packet.Packet.{Packet};
ghost use Rattle.pg_message_writer.specs.Limits.{max_small_len};
ghost use Rattle.pg_message_writer.specs.Frames.{frame_of};
ghost use Rattle.pg_node_sends.specs.Going.{goes_out, read_in};

use crate::goes::Goes;
use bytes::BytesMut;
use std::alloc::Global;

/// What an event sends, written: one frame, which is copied to each peer that it goes to.
#[derive(Debug, Drop)]
pub struct Framed {
    frame: BytesMut,
    goes: Goes,
    ghost read: { goes_out goes ≡ true → IsOk (read_in frame.items) },
    ghost whole: { (packet : Packet) → goes_out goes ≡ true → read_in frame.items ≡ Ok packet → frame.items ≡ frame_of packet },
    ghost short: { goes_out goes ≡ true → length frame.items ≤ 4 + max_small_len },
    ghost quiet: { goes_out goes ≡ false → frame.items ≡ [] },
}

impl Framed {
    ghost use Rattle.pg_node_sends.specs.Framed.{listed_of};
    ghost use Rattle.pg_node_sends.specs.Going.{HasFrame, going_framed};

    /// No frame, to nobody. It takes no memory.
    pub(crate) fn nobody(alloc: Global) -> Framed
        ensures { listed_of result ≡ [] }
    {
        let frame = BytesMut::new(alloc);
        Framed::new(frame, Goes::Nobody)
    }

    /// A frame to peers; nothing is left of it where it goes to nobody. It takes no memory.
    pub(crate) fn new(mut frame: BytesMut, goes: Goes) -> Framed
        requires { HasFrame goes frame.items }
        ensures { listed_of result ≡ going_framed goes frame.items }
    {
        if let Goes::Nobody = goes {
            frame.clear();
        }
        Framed { frame, goes }
    }

    /// The frame; none, where it goes to nobody.
    pub fn frame(&self) -> &[u8]
        ensures { result.now ≡ self.now.frame.items }
    {
        self.frame.as_slice()
    }

    /// The frame, which is taken out with its memory; none, where it goes to nobody. It takes no memory.
    pub fn into_frame(self) -> BytesMut
        ensures items { result.items ≡ self.frame.items }
        ensures whole { result ≡ self.frame }
    {
        self.frame
    }

    /// The peers that it goes to.
    pub fn goes(&self) -> Goes
        ensures { result ≡ self.now.goes }
    {
        self.goes
    }
}
