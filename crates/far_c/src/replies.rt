// Splits replies into their values and the reasons of their refusals.
ghost use Rattle.std.specs.Prelude.{◌≡◌, IfOk, IfErr, OnOk};
ghost use Rattle.far_c.specs.Replies.{IsRefusedReply, GivesDone, GivesPlace, GivesAggregate, GivesAnswer, GivesJob, GivesNext};

use far_frame::Reply;
use far_types::{Answer, Refusal};

// Returns why a step was refused.
fn refusal(reply: Reply) -> Refusal
    requires { IsRefusedReply reply }
    ensures { reply ≡ Reply.Refused result }
{
    match reply {
        Reply::Refused(why) => why,
        _ => unreachable!(),
    }
}

pub fn done(reply: Reply) -> Result<(), Refusal>
    requires { GivesDone reply }
    ensures ok { OnOk result (reply ≡ Reply.Done) }
    ensures err { IfErr result (λ why. reply ≡ Reply.Refused why) }
{
    match reply {
        Reply::Done => Ok(()),
        other => Err(refusal(other)),
    }
}

pub fn place(reply: Reply) -> Result<u32, Refusal>
    requires { GivesPlace reply }
    ensures ok { IfOk result (λ place. reply ≡ Reply.Place place) }
    ensures err { IfErr result (λ why. reply ≡ Reply.Refused why) }
{
    match reply {
        Reply::Place(place) => Ok(place),
        other => Err(refusal(other)),
    }
}

pub fn aggregate(reply: Reply) -> Result<u32, Refusal>
    requires { GivesAggregate reply }
    ensures ok { IfOk result (λ a. reply ≡ Reply.Aggregate a) }
    ensures err { IfErr result (λ why. reply ≡ Reply.Refused why) }
{
    match reply {
        Reply::Aggregate(a) => Ok(a),
        other => Err(refusal(other)),
    }
}

pub fn answer(reply: Reply) -> Result<Answer, Refusal>
    requires { GivesAnswer reply }
    ensures ok { IfOk result (λ answer. reply ≡ Reply.Answer answer) }
    ensures err { IfErr result (λ why. reply ≡ Reply.Refused why) }
{
    match reply {
        Reply::Answer(answer) => Ok(answer),
        other => Err(refusal(other)),
    }
}

pub fn job(reply: Reply) -> Result<u64, Refusal>
    requires { GivesJob reply }
    ensures ok { IfOk result (λ job. reply ≡ Reply.Job job) }
    ensures err { IfErr result (λ why. reply ≡ Reply.Refused why) }
{
    match reply {
        Reply::Job(job) => Ok(job),
        other => Err(refusal(other)),
    }
}

pub fn next(reply: Reply) -> Result<Vec<u32>, Refusal>
    requires { GivesNext reply }
    ensures ok { IfOk result (λ groups. reply ≡ Reply.Next groups) }
    ensures err { IfErr result (λ why. reply ≡ Reply.Refused why) }
{
    match reply {
        Reply::Next(groups) => Ok(groups),
        other => Err(refusal(other)),
    }
}
