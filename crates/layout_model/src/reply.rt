ghost use Rattle.std.specs.Prelude.{◌≡◌};
ghost use Rattle.layout_model.specs.Answers.{no_answer};
ghost use Rattle.layout_model.specs.declared.outcome.Answer.{Answer};

use crate::context::Question;
use crate::outcome::Answer;
use std::alloc::Global;

/// A question of an element to one of its children, and the child's answer to it.
#[derive(Debug, Drop)]
pub struct Reply {
    pub question: Question,
    /// The answer, and that of a child that wasn't asked for as long as there is none.
    pub answer: Answer,
}

impl Reply {
    /// A question that isn't answered yet. It takes no memory.
    pub fn to_come(alloc: Global, question: Question) -> Reply
        ensures question { result.question ≡ question }
        ensures answer { result.answer ≡ no_answer }
    {
        Reply {
            question,
            answer: Answer::none(alloc),
        }
    }
}

/// What holds the answer of a child.
pub trait Answered {
    /// The answer.
    ghost told: { Self → Answer };

    /// The answer.
    fn answer(&self) -> &Answer
        ensures { result.now ≡ told self.now };
}

/// An answer alone.
impl Answered for Answer {
    ghost told = { λ answer. answer };

    fn answer(&self) -> &Answer {
        self
    }
}

/// An answer that is held elsewhere.
impl<'a> Answered for &'a Answer {
    ghost told = { λ answer. answer.now };

    fn answer(&self) -> &Answer {
        self
    }
}

/// An answer beside its question.
impl Answered for Reply {
    ghost told = { λ reply. reply.answer };

    fn answer(&self) -> &Answer {
        &self.answer
    }
}
