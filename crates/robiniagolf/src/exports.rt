//! The calls of C. `c/include/robiniagolf/judge.h` tells what each asks of its caller. None has a `requires`.

ghost use Rattle.std.specs.Prelude.{◌≡◌, ◌≢◌, ◌↔◌, ◌++◌, ◌⊎◌, ℕ, List, [], None, IsSome, IsNone};
ghost use Rattle.robiniagolf.specs.Verdicts.{Answers, IsDone, IsVerdict, IsVerdictAtEnd, Keeps, answer_by, verdict_by};

use crate::handle::{JudgeHandle, put_judge, take_judge};
use crate::verdict::{Verdict, answer_of};
use judging::TextJudge;
use std::alloc::Global;

/// Makes a judge that was fed nothing, and answers yes so far. 0 made, 3 memory, 5 the handle keeps one already. Where
/// it is not 0, the handle is as it was.
#[unsafe(no_mangle)]
pub extern "C" fn robiniagolf_judge_new(alloc: Global, judge: &mut JudgeHandle) -> u32
    ensures made { result ≡ 0 → Keeps judge.new.kept.value [] }
    ensures ready { result ≡ 0 → answer_by judge.new.kept.value ≡ 0 }
    ensures refused { result ≢ 0 → judge.new.kept.value ≡ judge.old.kept.value }
    ensures answers { (result ≡ 0) ⊎ ((result ≡ 3) ⊎ (result ≡ 5)) }
    ensures in_use { (result ≡ 5) ↔ IsSome judge.old.kept.value }
{
    if judge.full {
        return 5;
    }
    let Ok(made) = Box::new(alloc, TextJudge::new(alloc)) else {
        return 3;
    };
    put_judge(judge, made);
    0
}

/// Takes the next piece of the text. The answer so far, which is that of the verdict: 0 yes, 1 no, 2 bad text, 3 memory,
/// 4 the handle keeps nothing.
#[unsafe(no_mangle)]
pub extern "C" fn robiniagolf_judge_feed(
    alloc: Global,
    judge: &mut JudgeHandle,
    piece: &[u8],
) -> u32
    ensures fed { (fed : List ℕ) → Keeps judge.old.kept.value fed → Keeps judge.new.kept.value (fed ++ piece.now) × Answers (fed ++ piece.now) result }
    ensures stands { IsDone judge.old.kept.value → judge.new.kept.value ≡ judge.old.kept.value }
    ensures told { result ≡ answer_by judge.new.kept.value }
{
    match take_judge(alloc, judge) {
        Some(mut held) => {
            held.feed(piece);
            let answer = answer_of(held.found());
            put_judge(judge, held);
            answer
        }
        None => 4,
    }
}

/// The verdict on the text so far: less than a line may stand at its end. The judge is as it was.
#[unsafe(no_mangle)]
pub extern "C" fn robiniagolf_judge_verdict(alloc: Global, judge: &mut JudgeHandle) -> Verdict
    ensures so_far { (fed : List ℕ) → Keeps judge.old.kept.value fed → IsVerdict fed result }
    ensures stays { judge.new.kept.value ≡ judge.old.kept.value }
    ensures told { result ≡ verdict_by judge.old.kept.value }
{
    match take_judge(alloc, judge) {
        Some(held) => {
            let verdict = Verdict::of(held.found());
            put_judge(judge, held);
            verdict
        }
        None => Verdict::no_judge(),
    }
}

/// The verdict on the text if it ends here: a line that has no end is a bad text. The judge is as it was, and more may
/// follow all the same. It takes no memory, so it answers 3 only where that stands already.
#[unsafe(no_mangle)]
pub extern "C" fn robiniagolf_judge_finish(alloc: Global, judge: &mut JudgeHandle) -> Verdict
    ensures whole { (fed : List ℕ) → Keeps judge.old.kept.value fed → IsVerdictAtEnd fed result }
    ensures stays { judge.new.kept.value ≡ judge.old.kept.value }
    ensures done { IsDone judge.old.kept.value → result ≡ verdict_by judge.old.kept.value }
    ensures memory { (fed : List ℕ) → Keeps judge.old.kept.value fed → result.answer ≡ 3 → answer_by judge.old.kept.value ≡ 3 }
{
    match take_judge(alloc, judge) {
        Some(held) => {
            let verdict = Verdict::of(held.found_at_end());
            put_judge(judge, held);
            verdict
        }
        None => Verdict::no_judge(),
    }
}

/// Frees the judge, and leaves the handle empty. 0 freed, 4 the handle keeps nothing.
#[unsafe(no_mangle)]
pub extern "C" fn robiniagolf_judge_free(alloc: Global, judge: &mut JudgeHandle) -> u32
    ensures freed { judge.new.kept.value ≡ None }
    ensures answers { IsSome judge.old.kept.value → result ≡ 0 }
    ensures empty { (result ≡ 4) ↔ IsNone judge.old.kept.value }
{
    match take_judge(alloc, judge) {
        Some(held) => {
            drop(held);
            0
        }
        None => 4,
    }
}
