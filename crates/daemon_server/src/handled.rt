ghost use Rattle.std.specs.Prelude.{◌≡◌, [], ◌∷◌, ◌++◌, map, None, IfOk, OnOk, MatchOption};
ghost use Rattle.daemon_core.specs.Outcome.{Outcome};
ghost use Rattle.daemon_core.specs.Outputs as spec;
ghost use Rattle.daemon_core.specs.Refusing.{Step};
ghost use Rattle.daemon_core.specs.Sending.{EachCanBeSent};
ghost use Rattle.daemon_core.specs.Serving.{or_refusal};
ghost use Rattle.daemon_core.specs.State.{Links, State};
ghost use Rattle.daemon_server.specs.Following.{answer_of, Handles, Follows};

use daemon_core::Output;
use daemon_links::{Change, Stop, send};
use rpc_message::{MessageId, Refusal, ToEditor};
use std::alloc::{AllocError, Global};
use tt_base::List;

/// What is answered to a message that has an id.
#[derive(Debug, Drop)]
pub(crate) enum Answer {
    /// Nothing: the message is a response.
    Silence,
    /// It is done.
    Success,
    /// It is refused.
    Refuses(Refusal),
}

/// What a message has come to.
#[derive(Debug, Drop)]
pub(crate) struct Handled {
    /// What is answered.
    pub(crate) answer: Answer,
    /// What the message's own connection is sent behind the answer.
    pub(crate) messages: List<ToEditor>,
    /// The one change of the files, if there is one.
    pub(crate) change: Option<Change>,
    /// Whether the daemon is to stop.
    pub(crate) shuts_down: bool,
}

/// Nothing changes, and this is answered.
pub(crate) fn quiet(alloc: Global, answer: Answer, shuts_down: bool) -> Result<Handled, AllocError>
    ensures { IfOk result (λ handled. handled ≡ record { answer = answer; messages = []; change = None; shuts_down = shuts_down }) }
{
    Ok(Handled {
        answer,
        messages: List::empty(alloc)?,
        change: None,
        shuts_down,
    })
}

/// A step as what it has come to: a refusal is answered.
pub(crate) fn answered(alloc: Global, done: Result<Handled, Stop>) -> Result<Handled, AllocError>
    ensures { (s : State) (step : Step Outcome) (own : Links) → Follows s step own done → IfOk result (Handles s (or_refusal s step) own) }
{
    match done {
        Ok(handled) => Ok(handled),
        Err(Stop::Refused(refusal)) => quiet(alloc, Answer::Refuses(refusal), false),
        Err(Stop::Memory) => Err(AllocError),
    }
}

/// The reply to a message, if it has one.
fn reply(id: Option<MessageId>, answer: Answer) -> Option<ToEditor>
    ensures { MatchOption result (spec.reply id (answer_of answer) ≡ []) (λ message. spec.reply id (answer_of answer) ≡ message ∷ []) }
{
    let id = id?;
    match answer {
        Answer::Silence => None,
        Answer::Success => Some(ToEditor::Success(id)),
        Answer::Refuses(refusal) => Some(ToEditor::Refused(id, refusal)),
    }
}

/// The reply to a message goes out on its connection.
pub(crate) fn send_reply(
    alloc: Global,
    n: u64,
    id: Option<MessageId>,
    answer: Answer,
    sent: &mut Vec<Output>,
) -> Result<(), AllocError>
    ensures frames { OnOk result (sent.new.items ≡ sent.old.items ++ map (spec.send n) (spec.reply id (answer_of answer))) }
    ensures read { OnOk result (EachCanBeSent (spec.reply id (answer_of answer))) }
{
    let Some(message) = reply(id, answer) else {
        return Ok(());
    };
    let output = send(alloc, n, &message)?;
    sent.push(output)?;
    Ok(())
}
