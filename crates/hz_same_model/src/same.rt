//! Laws of machines that are the same.

ghost use Rattle.hz_pipeline_model.specs.Tables.Machines.{Machine};
ghost use Rattle.hz_same_model.specs.Telling.{AnswerTheSame, AreSame};

/// What is said of one machine and another is said of the other and the one.
pub fn being_the_same_goes_both_ways()
    ensures answers { (first second : Machine) → AnswerTheSame first second → AnswerTheSame second first }
    ensures same { (first second : Machine) → AreSame first second → AreSame second first }
{}

/// Two machines that are the same as one between them are the same. A machine is the same as itself.
pub fn being_the_same_goes_on()
    ensures on { (first second third : Machine) → AreSame first second → AreSame second third → AreSame first third }
    ensures itself { (m : Machine) → AreSame m m }
{}
