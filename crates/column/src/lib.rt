// A pile as a column of slices: what a settlement stands on. Balanced columns, both marches and the bracket that they give are in specs/.
#![tactic(auto)]

ghost use Rattle.column.specs.Bracket.{BracketStands, EndsRise};

// What a column needs to know of the pile and of the layer that bears it. Any numbers, the soil among them: the theorem of the bracket is about all.
#[derive(Clone, Copy, PartialEq, Eq, Debug)]
pub struct PileBody {
    // A, mm²
    pub tip_area: u64,
    // P, mm
    pub perimeter: u64,
    // S, the modulus of the material times the section, N
    pub stiffness: u64,
    // B, mm
    pub diameter: u64,
    // of the bearing layer; Ménard modulus in kPa
    pub tip_soil: u64,
    pub tip_modulus: u64,
    // qb, Pa
    pub tip_resistance: u64,
}

// A part of the shaft in one layer, or a slice of such a part; any numbers again.
#[derive(Clone, Copy, PartialEq, Eq, Default, Debug)]
pub struct Part {
    // mm
    pub height: u64,
    // of its layer; Ménard modulus in kPa
    pub soil: u64,
    pub modulus: u64,
    // q, Pa
    pub friction: u64,
}

// The tip, or the upper end of a slice: how far the pile has moved down there, in nm, and the force in it, in µN.
#[derive(Clone, Copy, PartialEq, Eq, Debug)]
pub struct Node {
    pub displacement: u64,
    pub force: u64,
}

// The theorem of the bracket, for all laws with their meaning, all slices and all loads; it computes nothing.
pub fn bracket_stands()
    ensures { BracketStands }
{}

// A tip pushed further never lowers the force at which a march ends; it computes nothing.
pub fn ends_rise()
    ensures { EndsRise }
{}
