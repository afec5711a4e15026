// What was expected where a question was answered No.
ghost use Rattle.std.specs.Prelude.{◌≡◌};
ghost use Rattle.tell.specs.Notices.{form_of, range_of, expected_of};

use reader::fault::{Due, Fault, Question};
use words::flaw::Flaw;

// What was expected where nothing more was due, and where the text did not end.
const THE_END: &str = "expected the text to end here";

// The form of the line that is due, and the ranges of its numbers. Where nothing is due, the text is to end.
fn form_and_range(due: Due) -> (&'static str, &'static str)
    ensures form { result.0.now ≡ form_of due }
    ensures range { result.1.now ≡ range_of due }
{
    match due {
        Due::Header => ("expected `blocks N`", "expected N from 1 to 64"),
        Due::Count => (
            "expected a contents line `bI C` with the block's own number I",
            "expected a count from 0 to 512",
        ),
        Due::MiddleNode => (
            "expected a middle node",
            "expected registers r0 to r15, slots 0 to 15 and signed 32-bit numbers",
        ),
        Due::LastNode => (
            "expected a last node: go, if or end",
            "expected registers r0 to r15 and blocks of this script",
        ),
        Due::Nothing => (THE_END, THE_END),
    }
}

// What would have been answered Yes.
pub(crate) fn expected(fault: Fault) -> &'static str
    ensures { result.now ≡ expected_of fault.question fault.due }
{
    let (form, range) = form_and_range(fault.due);
    match fault.question {
        Question::Feed => "expected a line feed at the end of the line",
        Question::Words(Flaw::Form) => form,
        Question::Words(Flaw::Range) => range,
        Question::Total => "expected counts that come to at most 512",
        Question::Finish => THE_END,
    }
}
