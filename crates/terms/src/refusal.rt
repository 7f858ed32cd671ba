// Why a call stops: one case for each reason, with the place where the reason depends on it.
ghost use Rattle.std.specs.Prelude.{◌≡◌};
ghost use Rattle.terms.specs.Refusals.{number_of, part_of, place_of};

// What the refusal is about.
#[derive(Clone, Copy, PartialEq, Eq, Debug)]
pub enum Part {
    Text,
    Ground,
    Pile,
    Answer,
    Law,
}

// A field counts as on the sheet, where the letter is 0.
#[derive(Clone, Copy, PartialEq, Eq, Debug)]
pub enum Refusal {
    // A line that begins with no letter of a command.
    UnknownLetter,
    // A line of more than 120 bytes.
    LongLine,
    // A field that is missing, surplus or malformed.
    MalformedField { field: u64 },
    // Amend: there is no layer of that index.
    NoLayerToAmend,
    // Lift: there is no layer.
    NoLayerToLift,
    // A layer's number outside its limits.
    LayerNumber { field: u64 },
    // A 33rd layer, of that index.
    SurplusLayer { index: u64 },
    // The layer of that index would bring the ground over its greatest depth.
    DeepGround { index: u64 },
    // A pile's number outside its limits.
    PileNumber { field: u64 },
    // A diameter that is odd.
    OddDiameter,
    // The vibrodriven mark in a category that knows none.
    VibrodrivenCategory,
    // A load or a factor outside its limits.
    QuestionNumber { field: u64 },
    // No pile was driven.
    NoPile,
    // The ground ends above the depth that the tip needs.
    ShallowGround { depth: u64 },
    // The friction rule refuses the layer of that index, which the shaft passes.
    NoFriction { index: u64 },
    // The resistance would strain the pile's material by more than the settlement method allows.
    OverstrainedPile,
    // No lower march ends above the load.
    LoadNotCarried,
    // The length of a hyperbola's shaft curve, or of its tip curve, outside its limits.
    ShaftLength,
    TipLength,
}

impl Refusal {
    pub fn number(self) -> u64
        ensures { result ≡ number_of self }
    {
        match self {
            Refusal::UnknownLetter => 1,
            Refusal::LongLine | Refusal::MalformedField { .. } => 2,
            Refusal::LayerNumber { .. } => 21,
            Refusal::SurplusLayer { .. } | Refusal::DeepGround { .. } => 22,
            Refusal::NoLayerToAmend | Refusal::NoLayerToLift => 23,
            Refusal::PileNumber { .. } | Refusal::OddDiameter => 31,
            Refusal::VibrodrivenCategory => 32,
            Refusal::NoPile => 41,
            Refusal::ShallowGround { .. } => 42,
            Refusal::LoadNotCarried => 43,
            Refusal::NoFriction { .. } => 44,
            Refusal::OverstrainedPile => 45,
            Refusal::QuestionNumber { .. } => 46,
            Refusal::ShaftLength | Refusal::TipLength => 52,
        }
    }

    pub fn part(self) -> Part
        ensures { result ≡ part_of self }
    {
        match self {
            Refusal::UnknownLetter | Refusal::LongLine | Refusal::MalformedField { .. } =>
                Part::Text,
            Refusal::NoLayerToAmend
            | Refusal::NoLayerToLift
            | Refusal::LayerNumber { .. }
            | Refusal::SurplusLayer { .. }
            | Refusal::DeepGround { .. } => Part::Ground,
            Refusal::PileNumber { .. } | Refusal::OddDiameter | Refusal::VibrodrivenCategory =>
                Part::Pile,
            Refusal::QuestionNumber { .. }
            | Refusal::NoPile
            | Refusal::ShallowGround { .. }
            | Refusal::OverstrainedPile
            | Refusal::LoadNotCarried
            | Refusal::NoFriction { .. } => { Part::Answer }
            Refusal::ShaftLength | Refusal::TipLength => Part::Law,
        }
    }

    pub fn place(self) -> u64
        ensures { result ≡ place_of self }
    {
        match self {
            Refusal::UnknownLetter
            | Refusal::LongLine
            | Refusal::NoLayerToLift
            | Refusal::NoPile
            | Refusal::OverstrainedPile
            | Refusal::LoadNotCarried => 0,
            Refusal::NoLayerToAmend | Refusal::ShaftLength => 1,
            Refusal::VibrodrivenCategory | Refusal::TipLength => 2,
            Refusal::OddDiameter => 3,
            Refusal::MalformedField { field }
            | Refusal::LayerNumber { field }
            | Refusal::PileNumber { field }
            | Refusal::QuestionNumber { field } => field,
            Refusal::SurplusLayer { index }
            | Refusal::DeepGround { index }
            | Refusal::NoFriction { index } => index,
            Refusal::ShallowGround { depth } => depth,
        }
    }
}
