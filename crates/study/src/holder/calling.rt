// The calls of a study. None allocates but the making; a refusal leaves the whole study as it was.
ghost use Rattle.std.specs.Prelude.{◌≡◌, IfOk};
ghost use Rattle.terms.specs.Chains.{Answers};
ghost use Rattle.study.specs.Sites.{bare};
ghost use Rattle.study.specs.Sites.Plain.{Lay, Amend, Lift, Drive};
ghost use Rattle.study.specs.Rules.{judge_refusal, JudgedOn};
ghost use Rattle.study.specs.Views.{site_of, rule_of, law_of, Obeys, meaning};

use crate::holder::Study;
use calls::{Judgement, Question};
use friction::rule::FrictionRule;
use ground::layer::{Amendment, Layer};
use ground::table::Ground;
use pile::driven::Pile;
use pile::numbers::PileNumbers;
use resistance::judging::{check_question, judge};
use std::alloc::{AllocError, Global};
use terms::refusal::Refusal;
use transfer::TransferLaw;

impl<R: FrictionRule + Drop, L: TransferLaw + Drop> Study<R, L> {
    // No layers and no pile.
    pub fn new(heap: Global, rule: R, law: L) -> Result<Study<R, L>, AllocError>
        ensures { IfOk result (λ s. (site_of s ≡ bare) × (rule_of s ≡ rule) × (law_of s ≡ law)) }
    {
        let ground = Ground::new(heap)?;
        Ok(Study {
            rule,
            law,
            ground,
            pile: None,
        })
    }
}

impl<R: FrictionRule, L: TransferLaw> Study<R, L> {
    // One more layer below.
    pub fn lay(&mut self, layer: Layer) -> Result<(), Refusal>
        ensures { Obeys self.old (Lay layer) result self.new }
    {
        self.ground.lay(layer)
    }

    // A new pressure and modulus for the layer of that index.
    pub fn amend(&mut self, amendment: Amendment) -> Result<(), Refusal>
        ensures { Obeys self.old (Amend amendment.index amendment.pressure amendment.modulus) result self.new }
    {
        self.ground.amend(amendment)
    }

    // The lowest layer removed.
    pub fn lift(&mut self) -> Result<(), Refusal>
        ensures { Obeys self.old Lift result self.new }
    {
        self.ground.lift()
    }

    // The pile set, in place of any that was.
    pub fn drive(&mut self, numbers: PileNumbers) -> Result<(), Refusal>
        ensures { Obeys self.old (Drive numbers) result self.new }
    {
        self.pile = Some(Pile::new(numbers)?);
        Ok(())
    }

    // Resistance, capacity and verdict.
    pub fn judge(&self, question: &Question) -> Result<Judgement, Refusal>
        ensures { Answers (judge_refusal (R.FrictionRule.answer (rule_of self.now)) (site_of self.now) question.now) (JudgedOn (meaning R.FrictionRule self.now) (site_of self.now) question.now) result }
    {
        check_question(question)?;
        let pile = self.pile.ok_or(Refusal::NoPile)?;
        judge(&self.rule, &self.ground, &pile, question)
    }
}
