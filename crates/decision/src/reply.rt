// The extensions of our ServerHello.
ghost use Rattle.std.specs.Prelude.{◌≡◌, true, false, ◌++◌, ◌+◌, ◌≤◌, length, take};
ghost use Rattle.hello.specs.Written.{written_list};
ghost use Rattle.decision.specs.Reply.{reply_list, reply_of};

use crate::connection::Connection;

// The first `length` bytes count.
#[derive(Clone, Copy)]
pub(crate) struct Reply {
    bytes: [u8; 35],
    length: usize,
    ghost within: { length ≤ 35 },
}

impl Reply {
    pub(crate) fn as_slice(&self) -> &[u8]
        ensures { result.now ≡ take self.now.length self.now.bytes }
    {
        &self.bytes[..self.length]
    }

    fn push(&mut self, bytes: &[u8])
        requires { self.old.length + length bytes.now ≤ 35 }
        ensures size { self.new.length ≡ self.old.length + length bytes.now }
        ensures content { take self.new.length self.new.bytes ≡ take self.old.length self.old.bytes ++ bytes.now }
    {
        let from = self.length;
        let end = from + bytes.len();
        self.bytes[from..end].copy_from_slice(bytes);
        self.length = end;
    }

    // RI: empty in a first handshake, later both values of verify_data.
    fn push_indication(&mut self, connection: &Connection)
        requires { self.old.length ≡ 2 }
        ensures size { (self.new.length ≡ 2 + length (written_list (reply_list connection.now true false))) × (self.new.length ≤ 31) }
        ensures content { take self.new.length self.new.bytes ≡ take self.old.length self.old.bytes ++ written_list (reply_list connection.now true false) }
    {
        if connection.completed == 0 {
            self.push(&[255, 1, 0, 1, 0]);
        } else {
            self.push(&[255, 1, 0, 25, 24]);
            self.push(&connection.verify_data());
        }
    }
}

// A block length, then RI if the flag is set, then EMS if it is used; with neither, nothing.
pub(crate) fn build_reply(connection: &Connection, flag: bool, ems: bool) -> Reply
    ensures { take result.length result.bytes ≡ reply_of connection.now flag ems }
{
    let mut reply = Reply {
        bytes: [0; 35],
        length: 0,
    };
    if !flag && !ems {
        return reply;
    }
    reply.push(&[0, 0]);
    if flag {
        reply.push_indication(connection);
    }
    if ems {
        reply.push(&[0, 23, 0, 0]);
    }
    reply.bytes[1] = reply.length as u8 - 2;
    reply
}
