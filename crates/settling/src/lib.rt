// The settlement of a pile under a load, as a bracket in which every balanced column that carries it lies.
#![tactic(auto)]

ghost use Rattle.std.specs.Prelude.{◌≡◌, true, None, MatchOption};
ghost use Rattle.terms.specs.Chains.{Answers, or_else};
ghost use Rattle.transfer.specs.declared.Place.TheVariants as place;
ghost use Rattle.ground.specs.Table.{strata};
ghost use Rattle.pile.specs.Driven.{numbers_of};
ghost use Rattle.column.specs.Tips.{tip_range, no_march_above};
ghost use Rattle.resistance.specs.Judging.{load_flaw, micronewtons};
ghost use Rattle.shaft.specs.Views.{body_of};
ghost use Rattle.march.specs.Curves.{case_of_bedded};
ghost use Rattle.settling.specs.Refused.{settling_refusal};
ghost use Rattle.settling.specs.Settles.{Settles, SettledRightly};

use calls::{Bracket, Settlement};
use friction::rule::FrictionRule;
use ground::table::Ground;
use march::{Bedded, Side};
use pile::driven::Pile;
use pile::footing::Footing;
use resistance::fetching::fetch;
use resistance::judging::{MICRONEWTONS, check_load};
use shaft::held::Shaft;
use terms::refusal::Refusal;
use tips::{lower_tip, upper_tip};
use transfer::TransferLaw;

// The brackets of tip and head under a load in kN, or none where no lower march ends above it.
fn settlement<L: TransferLaw>(bedded: &Bedded<L>, load: u64) -> Option<Settlement>
    requires { load_flaw load ≡ None }
    ensures { MatchOption result (no_march_above (case_of_bedded L.curve bedded.now) (tip_range (body_of bedded.now.shaft.now)) (micronewtons load) ≡ true) (λ x. Settles (case_of_bedded L.curve bedded.now) (tip_range (body_of bedded.now.shaft.now)) (micronewtons load) x) }
{
    let force = load * MICRONEWTONS;
    let upper = upper_tip(bedded, force)?;
    let lower = lower_tip(bedded, force);
    let lowest = bedded.march(Side::Lower, lower);
    let highest = bedded.march(Side::Upper, upper);
    Some(Settlement {
        tip: Bracket { lower, upper },
        head: Bracket {
            lower: lowest.displacement,
            upper: highest.displacement,
        },
    })
}

// The settlement under a load in kN of a pile in a ground, and no footing, since a ground too shallow is one of its refusals; refused, in this order, for the load, for the ground's depth, for a layer of which the
// rule says nothing, for an overstrained pile, and for a load above which no lower march ends.
pub fn settle<R: FrictionRule, L: TransferLaw>(
    rule: &R,
    law: &L,
    ground: &Ground,
    pile: &Pile,
    load: u64,
) -> Result<Settlement, Refusal>
    ensures { Answers (or_else (load_flaw load) (settling_refusal (R.FrictionRule.answer rule.now) (L.TransferLaw.curve law.now place.Shaft) (L.TransferLaw.curve law.now place.Tip) load (strata ground.now) (numbers_of pile.now))) (SettledRightly (R.FrictionRule.answer rule.now) (L.TransferLaw.curve law.now place.Shaft) (L.TransferLaw.curve law.now place.Tip) load (strata ground.now) (numbers_of pile.now)) result }
{
    check_load(load)?;
    let footing = Footing::new(ground, pile)?;
    let frictions = fetch(rule, ground, pile)?;
    let shaft = Shaft::on(&footing, &frictions)?;
    let bedded = Bedded { law, shaft: &shaft };
    settlement(&bedded, load).ok_or(Refusal::LoadNotCarried)
}
