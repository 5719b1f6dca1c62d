//! The law of answers.

ghost use Rattle.sim_plans.specs.FactLaws.{AnswersAgree};

/// What is answered over what a kind keeps of a state is what is answered over its rows.
pub fn answers_are_those_over_the_rows()
    ensures { AnswersAgree }
{}
