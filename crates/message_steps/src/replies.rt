ghost use Rattle.std.specs.Prelude.{◌≡◌, [], ◌∷◌, ◌++◌, map, OnOk, MatchOption};
ghost use Rattle.daemon_core.specs.Outputs as spec;
ghost use Rattle.daemon_core.specs.Sending.{EachCanBeSent};
ghost use Rattle.message_steps.specs.Following.{answer_of};

use crate::steps::Answer;
use daemon_core::Output;
use daemon_links::send;
use rpc_message::{MessageId, ToEditor};
use std::alloc::{AllocError, Global};

/// The reply to a message, if it has one.
fn reply(id: Option<MessageId>, answer: Answer) -> Option<ToEditor>
    ensures { MatchOption result (spec.reply id (answer_of answer) ≡ []) (λ message. spec.reply id (answer_of answer) ≡ message ∷ []) }
{
    let id = id?;
    match answer {
        Answer::Silence => None,
        Answer::Success => Some(ToEditor::Success(id)),
        Answer::Refuses(refusal) => Some(ToEditor::Refused(id, refusal)),
    }
}

/// The reply to a message goes out on its connection, behind what is sent already.
pub fn send_reply(
    alloc: Global,
    n: u64,
    id: Option<MessageId>,
    answer: Answer,
    sent: &mut Vec<Output>,
) -> Result<(), AllocError>
    ensures frames { OnOk result (sent.new.items ≡ sent.old.items ++ map (spec.send n) (spec.reply id (answer_of answer))) }
    ensures read { OnOk result (EachCanBeSent (spec.reply id (answer_of answer))) }
{
    let Some(message) = reply(id, answer) else {
        return Ok(());
    };
    let output = send(alloc, n, &message)?;
    sent.push(output)?;
    Ok(())
}
