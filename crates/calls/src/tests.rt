// The answer that the outcome of a call is, and a question from its numbers.
use crate::{Answer, Judgement, Question};
use terms::refusal::Refusal;

#[test]
fn answers_what_a_call_came_to(rt: HostRuntime) {
    assert_eq!(rt; Answer::from(()), Answer::Done);
    let done: Result<(), Refusal> = Ok(());
    assert_eq!(rt; Answer::from(done), Answer::Done);
    let judgement = Judgement {
        resistance: 471_000_000_000,
        capacity: 372_332_015_810,
        carries: true,
    };
    assert_eq!(rt; Answer::from(judgement), Answer::Judged(judgement));
    let judged: Result<Judgement, Refusal> = Ok(judgement);
    assert_eq!(rt; Answer::from(judged), Answer::Judged(judgement));
    let refused: Result<Judgement, Refusal> = Err(Refusal::LoadNotCarried);
    assert_eq!(rt;
        Answer::from(refused),
        Answer::Refused(Refusal::LoadNotCarried)
    );
}

#[test]
fn asks_in_the_order_of_the_fields(rt: HostRuntime) {
    let question = Question {
        load: 300,
        model_factor: 1_150,
        resistance_factor: 1_100,
    };
    assert_eq!(rt; Question::from([300, 1_150, 1_100]), question);
}
