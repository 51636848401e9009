// What an access or event hands back: the next record, and the answer.
use crate::record::Controller;
use answer::Answer;

#[derive(Clone, Copy, Debug, PartialEq, Eq)]
pub struct Reply {
    pub controller: Controller,
    pub answer: Answer,
}
