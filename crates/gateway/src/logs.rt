// The message log (document 01).
ghost use Rattle.message_log.specs.Told.{told_of};
ghost use Rattle.message_log.specs.History.History.{fresh};
ghost use Rattle.message_log.specs.Standing.Standing.{whole};
ghost use Rattle.message_log.specs.Stands.{Stands};
ghost use Rattle.message_log.specs.Promise.{Accepts, Feeds, Finishes, Hashes, Expects};

use message_log::{Accepted, Expected, Fed, Log, SessionHash, Told};

#[unsafe(no_mangle)]
pub extern "C" fn axle_log_fresh() -> Log
    ensures { Stands result (whole fresh) }
{
    Log::fresh()
}

#[unsafe(no_mangle)]
pub extern "C" fn axle_log_accept(log: Log, message: &[u8], told: Told) -> Accepted
    ensures { Accepts log message.now (told_of told) result }
{
    log.accept(message, told)
}

#[unsafe(no_mangle)]
pub extern "C" fn axle_log_feed(log: Log, rest: &[u8], allowance: usize, told: Told) -> Fed
    ensures { Feeds log rest.now allowance (told_of told) result }
{
    log.feed(rest, allowance, told)
}

#[unsafe(no_mangle)]
pub extern "C" fn axle_log_session_hash(log: Log) -> SessionHash
    ensures { Hashes log result }
{
    log.session_hash()
}

#[unsafe(no_mangle)]
pub extern "C" fn axle_log_finish(log: Log, secret: &[u8], message: &[u8]) -> Accepted
    ensures { Finishes log secret.now message.now result }
{
    log.finish(secret, message)
}

#[unsafe(no_mangle)]
pub extern "C" fn axle_log_expected_finished(log: Log, secret: &[u8]) -> Expected
    ensures { Expects log secret.now result }
{
    log.expected_finished(secret)
}
