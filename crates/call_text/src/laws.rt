//! What an answer says, as it is printed.

ghost use Rattle.call_text.specs.declared.answer.Answer.{Answer};
ghost use Rattle.call_text.specs.Answers.{answer_line, IsOneLine};

/// What is printed of an answer is one line.
pub fn answers_are_lines()
    ensures { (answer : Answer) → IsOneLine (answer_line answer) }
{}
