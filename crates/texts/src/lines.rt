// One printed line each, put behind a text. Numbers become digits in a buffer of `itoa` first: as numbers in the line itself they made it
// take some 1.5 times as long.
ghost use Rattle.std.specs.Prelude.{◌≡◌, ◌++◌, string_bytes, OnOk};
ghost use Rattle.texts.specs.Text.{head_line, placed_line, none_line, cut_line};

use cuts::Cut;
use itoa::Buffer;
use std::alloc::AllocError;

// How many asks there were, and how many applicants have a place.
#[tactic(auto, unfolding(crate::specs::Text::head_line))]
pub fn push_head(text: &mut String, asks: usize, placed: usize) -> Result<(), AllocError>
    ensures { OnOk result (string_bytes text.new ≡ string_bytes text.old ++ head_line asks placed) }
{
    let (mut asked, mut seated) = (Buffer::new(), Buffer::new());
    let asks = asked.format(asks);
    let placed = seated.format(placed);
    writeln!(text, "asks {asks} placed {placed}")
}

// An applicant that has a place, where it has it, and the how manieth wish that is.
#[tactic(auto, unfolding(crate::specs::Text::placed_line))]
pub fn push_placed(
    text: &mut String,
    applicant: usize,
    workshop: u16,
    wish: usize,
) -> Result<(), AllocError>
    ensures { OnOk result (string_bytes text.new ≡ string_bytes text.old ++ placed_line applicant workshop wish) }
{
    let (mut whose, mut at, mut which) = (Buffer::new(), Buffer::new(), Buffer::new());
    let applicant = whose.format(applicant);
    let workshop = at.format(workshop);
    let wish = which.format(wish);
    writeln!(
        text,
        "applicant {applicant} workshop {workshop} wish {wish}"
    )
}

// An applicant without a place.
#[tactic(auto, unfolding(crate::specs::Text::none_line))]
pub fn push_none(text: &mut String, applicant: usize) -> Result<(), AllocError>
    ensures { OnOk result (string_bytes text.new ≡ string_bytes text.old ++ none_line applicant) }
{
    let mut whose = Buffer::new();
    let applicant = whose.format(applicant);
    writeln!(text, "applicant {applicant} none")
}

// The cut of a workshop.
#[tactic(auto, unfolding(crate::specs::Text::cut_line))]
pub fn push_cut(text: &mut String, workshop: usize, cut: Cut) -> Result<(), AllocError>
    ensures { OnOk result (string_bytes text.new ≡ string_bytes text.old ++ cut_line workshop cut) }
{
    let mut at = Buffer::new();
    let workshop = at.format(workshop);
    writeln!(text, "cut {workshop} {cut}")
}
