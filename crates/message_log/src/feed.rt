// A message that enters part by part (document 02, order 4): each call carries an allowance of hash blocks and lends the whole untaken rest.
ghost use Rattle.std.specs.Prelude.{◌≡◌, not};
ghost use Rattle.message_log.specs.Told.{told_of};
ghost use Rattle.message_log.specs.Feed.{bad_allowance};
ghost use Rattle.message_log.specs.Promise.{Feeds};
ghost use Rattle.message_log.specs.Steps.{fed, PartTurn};

use crate::answers::{Fed, Told};
use crate::kind;
use crate::state::{Log, Turn};
use refusal::{Reason, Refusal, refuse};
use transcript::Blocks;

// The most blocks of one allowance.
const MOST: usize = 256;

const NONE: Blocks = Blocks {
    sha256: 0,
    sha384: 0,
};

impl Log {
    // As much of the rest as the allowance lets in; all of it, and the message is accepted. What is told counts with the first part of a
    // ServerHello.
    pub fn feed(mut self, rest: &[u8], allowance: usize, told: Told) -> Fed
        ensures { Feeds self rest.now allowance (told_of told) result }
    {
        match self.try_feed(rest, allowance, told) {
            Ok((taken, blocks)) => Fed {
                refusal: refuse(0),
                log: self,
                taken,
                blocks,
            },
            Err(reason) => Fed {
                refusal: Refusal::from(reason),
                log: self,
                taken: 0,
                blocks: NONE,
            },
        }
    }

    // How many bytes were taken, and the blocks that they completed. Refused, the log is as it was.
    fn try_feed(
        &mut self,
        rest: &[u8],
        allowance: usize,
        told: Told,
    ) -> Result<(usize, Blocks), Reason>
        ensures { Feeds self.old rest.now allowance (told_of told) (fed result self.new) }
    {
        let Some(turn) = self.part(rest, allowance, told)? else {
            return Ok((rest.len(), NONE));
        };
        let n = self.hash.lets_in(allowance as u16, rest.len());
        let blocks = self.entered(&rest[..n], turn, (rest.len() - n) as u16);
        Ok((n, blocks))
    }

    // What is asked before a byte is taken. A first part is judged as the whole message that it begins; behind it only how much is left.
    fn part(&self, rest: &[u8], allowance: usize, told: Told) -> Result<Option<Turn>, Reason>
        ensures { PartTurn self.now rest.now allowance (told_of told) result }
    {
        if !allowed(allowance) {
            return Err(Reason::Length);
        }
        if self.left == 0 {
            return self.turn(rest, told);
        }
        if rest.len() != self.left as usize {
            return Err(Reason::Length);
        }
        if self.kind == kind::HELLO_REQUEST {
            return Ok(None);
        }
        Ok(Some(Turn {
            kind: self.kind,
            place: self.next,
            sha384: self.sha384,
        }))
    }
}

fn allowed(allowance: usize) -> bool
    ensures { result ≡ not (bad_allowance allowance) }
{
    (1..=MOST).contains(&allowance)
}
