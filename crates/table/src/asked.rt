// A request with its answer.
use runs::requests::{Answer, Request};

// One line of a run: what is asked, and what was answered, once it was.
#[derive(Clone, Copy, Debug, PartialEq, Eq, Drop)]
pub struct Asked {
    pub request: Request,
    pub answer: Option<Answer>,
}
