//! What holds of every answer.

ghost use Rattle.std.specs.Prelude.{◌≡◌, ℕ, List, Some};
ghost use Rattle.ck_calls.specs.declared.call.Call.{Call};
ghost use Rattle.model_views.specs.TaskResults.{TaskResult, mask_outcome};
ghost use Rattle.model_views.specs.Views.{Question, View, mask};
ghost use Rattle.model_views.specs.Answering.{Reveal, mask_reveal, shown};
ghost use Rattle.model_answers.specs.Answers.{answer, answer_result};
ghost use Rattle.model_answers.specs.Standing.{FailsAlone, RefusesAlone};

/// Non-interference of an answer: what is revealed of it depends on what is revealed of the view, of a result, and of what
/// comes in from outside, alone. No masked value is in a reply, in the view after it or in what others see: none of a
/// masked key, of a key in use or of a PIN's verifier.
pub fn blind_answers()
    ensures calls { (v : View) (call : Call) (random : List ℕ) (r : Reveal)
        → shown (answer (mask v) call random (mask_reveal r)) ≡ shown (answer v call random r) }
    ensures results { (v : View) (outcome : TaskResult) (r : Reveal)
        → shown (answer_result (mask v) (mask_outcome outcome) (mask_reveal r)) ≡ shown (answer_result v outcome r) }
{}

/// A refusal changes nothing that the application or others see, but for an operation that it ends (PKCS #11 v3.1, 5.2). That
/// of a result ends the pending call, and may change tries, which others see.
pub fn refused_answers()
    ensures calls { (v : View) (call : Call) (random : List ℕ) (r : Reveal) → RefusesAlone call v (answer v call random r) }
    ensures results { (v : View) (q : Question) (outcome : TaskResult) (r : Reveal) → v.question ≡ Some q → FailsAlone v q (answer_result v outcome r) }
{}
