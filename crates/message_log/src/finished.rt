// What completion asks of a log.
ghost use Rattle.std.specs.Prelude.{◌≡◌};
ghost use Rattle.message_log.specs.Standing.{Standing};
ghost use Rattle.message_log.specs.Calls.{finished_of};
ghost use Rattle.message_log.specs.Stands.{Stands};

use crate::answers::Finished;
use crate::order::Place;
use crate::state::Log;

impl Log {
    // Both values at once, and only when both Finished are taken.
    pub fn finished(self) -> Finished
        ensures { (s : Standing) → Stands self s → result ≡ finished_of s }
    {
        let full = self.place == u8::from(Place::CompleteFull);
        let resumed = self.place == u8::from(Place::CompleteResumed);
        if !full && !resumed {
            return Finished {
                complete: 0,
                resumed: 0,
                client: [0; 12],
                server: [0; 12],
            };
        }
        let client = self.client;
        let server = self.server;
        Finished {
            complete: 1,
            resumed: u8::from(resumed),
            client,
            server,
        }
    }
}
