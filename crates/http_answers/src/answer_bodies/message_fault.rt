//! Why a message asks nothing of a project or a desk, and what is answered to it.
ghost use Rattle.std.specs.Prelude.{◌≡◌, IfOk};
ghost use Rattle.http.specs.StatusCode.{IsStatusCode};
ghost use Rattle.http_answers.specs.AnswerBodies.Refusals.{fault_answer, fault_name, fault_status};

use http_wire::Answer;
use mark_base::Memory;
use std::alloc::Global;

/// Why a message asks nothing of a project or a desk, in the order in which it is tested.
#[derive(Clone, Copy, Debug, PartialEq, Eq)]
pub enum MessageFault {
    /// No route has the path. Answered 404.
    NoRoute,
    /// No route at the path has the method. Answered 405.
    NoMethod,
    /// No field says who asks. Answered 401.
    NoCaller,
    /// The connection holds no desk. Answered 409.
    NoDesk,
    /// The connection holds a desk, and a second one was asked for. Answered 409.
    DeskHeld,
    /// The desk is another's. Answered 409.
    NotYours,
    /// The body is not of the form that the route has. Answered 400.
    BadBody,
    /// The text is longer than a document may be. Answered 413.
    TextTooLong,
}

impl MessageFault {
    /// The name of the fault.
    pub fn name(self) -> &'static str
        ensures { result.now ≡ fault_name self }
    {
        match self {
            MessageFault::NoRoute => "NoRoute",
            MessageFault::NoMethod => "NoMethod",
            MessageFault::NoCaller => "NoCaller",
            MessageFault::NoDesk => "NoDesk",
            MessageFault::DeskHeld => "DeskHeld",
            MessageFault::NotYours => "NotYours",
            MessageFault::BadBody => "BadBody",
            MessageFault::TextTooLong => "TextTooLong",
        }
    }

    /// The status of the answer.
    pub fn status(self) -> u16
        ensures value { result ≡ fault_status self }
        ensures status { IsStatusCode result }
    {
        match self {
            MessageFault::NoRoute => 404,
            MessageFault::NoMethod => 405,
            MessageFault::NoCaller => 401,
            MessageFault::NoDesk | MessageFault::DeskHeld | MessageFault::NotYours => 409,
            MessageFault::BadBody => 400,
            MessageFault::TextTooLong => 413,
        }
    }

    /// The answer to the message.
    pub fn answer(self, alloc: Global) -> Result<Answer, Memory>
        ensures answer { IfOk result (λ answer. answer ≡ fault_answer self) }
        ensures status { IfOk result (λ answer. IsStatusCode answer.status) }
    {
        Answer::refusal(alloc, self.status(), self.name())
    }
}
