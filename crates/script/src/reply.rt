// An answer, by what stands at its front.
ghost use Rattle.std.specs.Prelude.{◌≡◌, []};
ghost use Rattle.script.specs.Script.{reply};

#[derive(Clone, Copy)]
pub(crate) struct Reply {
    pub number: u8,
    // a session was found or withdrawn
    pub flag: u8,
    pub ems: u8,
    pub count: u8,
    pub suite: u16,
}

impl Reply {
    // A number alone.
    pub(crate) fn of(number: u8) -> Reply
        ensures { result ≡ record { number = number; flag = 0; ems = 0; count = 0; suite = 0 } }
    {
        Reply {
            number,
            flag: 0,
            ems: 0,
            count: 0,
            suite: 0,
        }
    }

    // Zeros stand behind it.
    pub(crate) fn bytes(self) -> [u8; 70]
        ensures { result ≡ reply self.number self.flag self.ems self.count self.suite [] }
    {
        let mut bytes = [0u8; 70];
        bytes[0] = self.number;
        bytes[1] = self.flag;
        bytes[2] = self.ems;
        bytes[3] = self.count;
        bytes[4] = (self.suite / 256) as u8;
        bytes[5] = (self.suite % 256) as u8;
        bytes
    }
}
