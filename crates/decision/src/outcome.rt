// The outcomes, and the answer that says one (RFC 7627, section 5).
ghost use Rattle.std.specs.Prelude.{◌≡◌};
ghost use Rattle.decision.specs.Connection.{allowed, legacy_resumption, resumed_legacy, decided};
ghost use Rattle.decision.specs.Server.{server_outcome};
ghost use Rattle.decision.specs.Client.{fullness};
ghost use Rattle.decision.specs.Steps.{original_in, outcome_of, reached, client_reaches, decision_in};

use crate::connection::{Decision, Switches};
use refusal::{Reason, Refusal, refuse};
use sessions::Weighed;

// Resumed or full; with EMS, or legacy.
#[derive(Clone, Copy)]
pub(crate) struct Outcome {
    pub resumes: bool,
    pub ems: bool,
}

const FULL_EMS: Outcome = Outcome {
    resumes: false,
    ems: true,
};

const RESUMED_EMS: Outcome = Outcome {
    resumes: true,
    ems: true,
};

// The server's six rows: by the session, with EMS or not, or none, and by the hello's EMS.
pub(crate) fn server_outcome(
    session: Option<Weighed>,
    ems: bool,
    switches: &Switches,
) -> Result<Outcome, Reason>
    ensures { result ≡ reached (server_outcome switches.now (original_in session) ems) }
{
    let Some(original) = session else {
        return full(ems, switches);
    };
    match (original.ems != 0, ems) {
        (true, true) => Ok(RESUMED_EMS),
        (true, false) => Err(Reason::NoSecret),
        (false, true) => Ok(FULL_EMS),
        (false, false) => legacy_resumption(switches),
    }
}

// On the client's side, of the session that is resumed, if one is: the hello's EMS is the session's.
pub(crate) fn client_outcome(
    resumed: Option<Weighed>,
    ems: bool,
    switches: &Switches,
) -> Result<Outcome, Reason>
    ensures { result ≡ reached (client_reaches switches.now (original_in resumed) ems) }
{
    let Some(original) = resumed else {
        return full(ems, switches);
    };
    match (original.ems != 0, ems) {
        (true, true) => Ok(RESUMED_EMS),
        (false, false) => legacy_resumption(switches),
        _ => Err(Reason::NoSecret),
    }
}

// Full: EMS, else legacy if that is allowed.
fn full(ems: bool, switches: &Switches) -> Result<Outcome, Reason>
    ensures { result ≡ reached (fullness switches.now ems) }
{
    if ems {
        return Ok(FULL_EMS);
    }
    if switches.legacy_full != 0 {
        return Ok(Outcome {
            resumes: false,
            ems: false,
        });
    }
    Err(Reason::NoSecret)
}

fn legacy_resumption(switches: &Switches) -> Result<Outcome, Reason>
    ensures { result ≡ reached (allowed (legacy_resumption switches.now) resumed_legacy) }
{
    if switches.legacy_resumption != 0 {
        return Ok(Outcome {
            resumes: true,
            ems: false,
        });
    }
    Err(Reason::NoSecret)
}

// The outcome with its bars.
pub(crate) fn decided(outcome: Outcome, flag: bool, reply_length: usize) -> Decision
    ensures { result ≡ decided (outcome_of outcome) flag reply_length }
{
    let bar = u8::from(outcome.resumes && !outcome.ems);
    Decision {
        refusal: refuse(0),
        resumes: u8::from(outcome.resumes),
        ems: u8::from(outcome.ems),
        indication: u8::from(flag),
        bar,
        bars_export: u8::from(!outcome.ems),
        bars_verify_data: bar,
        reply_length,
    }
}

// The decision, or the refusal and nothing else.
pub(crate) fn answered(decision: Result<Decision, Reason>) -> Decision
    ensures { result ≡ decision_in decision }
{
    match decision {
        Ok(decision) => decision,
        Err(reason) => Decision {
            refusal: Refusal::from(reason),
            resumes: 0,
            ems: 0,
            indication: 0,
            bar: 0,
            bars_export: 0,
            bars_verify_data: 0,
            reply_length: 0,
        },
    }
}
