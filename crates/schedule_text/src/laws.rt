//! What an answer says, as it is printed.

ghost use Rattle.std.specs.Prelude.{◌≡◌, Result, Ok};
ghost use Rattle.rcu_model.specs.declared.refusal.Refusal.{Refusal};
ghost use Rattle.world_state.specs.declared.line.Answer.{Answer};
ghost use Rattle.world_state.specs.View.{told};
ghost use Rattle.schedule_text.specs.Answers.{answer_line};
ghost use Rattle.schedule_text.specs.AnswerLines.{spelled, line_of, told_by};

/// What is printed of an answer is the text of one line of answers, which tells the answer's events and no others.
pub fn answers_are_lines()
    ensures spelled { (answer : Result Answer Refusal) → answer_line answer ≡ spelled (line_of answer) }
    ensures told { (answer : Answer) → told_by (line_of (Ok answer)) ≡ told answer }
{}
