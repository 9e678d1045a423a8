//! What answers the requests of a connection.
ghost use Rattle.std.specs.Prelude.{ℕ, ◌+◌, IfOk, OnErr};
ghost use Rattle.http_model.specs.Requests.{Request as RequestSeen};
ghost use Rattle.http_wire.specs.Reading.{request_of};
ghost use Rattle.wire_model.specs.declared.answer.Answer.{Answer as AnswerSeen};

use api_routes::{Answer, Request};
use site_ids::{Moment, NoMemory};
use std::alloc::Global;

/// Something that answers requests one after another.
pub trait Answerer {
    // So many more requests may be asked of it.
    ghost may_answer: { Self → ℕ → Type 0 };

    // What it was, a request, its moment and its answer, and what it is then.
    ghost answers: { Self → RequestSeen → ℕ → AnswerSeen → Self → Type 0 };

    // What it was, and what it is when memory ran out before an answer.
    ghost gives_up: { Self → Self → Type 0 };

    /// Answers a request at a moment, or runs out of memory.
    fn answer(
        &mut self,
        alloc: Global,
        request: &Request<'_>,
        now: Moment,
    ) -> Result<Answer, NoMemory>
        requires { (more : ℕ) × may_answer self.old (more + 1) }
        ensures answered { IfOk result
            (λ answer. answers self.old (request_of request.now) now answer self.new) }
        ensures may { (more : ℕ) → may_answer self.old (more + 1)
            → IfOk result (λ _. may_answer self.new more) }
        ensures err { OnErr result (gives_up self.old self.new) };
}
